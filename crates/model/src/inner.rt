// Inner functions: for the crates above, not for users. Where one has a `requires`, each caller proves it.
ghost use Rattle.std.specs.Prelude.{◌≡◌, ◌+◌, ◌*◌, ◌≤◌, length};
ghost use Rattle.std.proofs.lemmas.List.Edits.{sets};
ghost use Rattle.model.specs.Rows.{float_word, row_words, row_at};

use super::StateEstimate;

// A float's word, zero as plus zero.
fn float_word(x: f64) -> u64
    ensures { result ≡ float_word x }
{
    floats::to_bits(floats::plus_zero(x))
}

// Writes the row of state i. The C interface lends words, and here alone are they made, each named once: a `From` for `[u64; 7]` is no plainer.
#[tactic(auto, using(crate::proofs::Rows::row_put))]
pub fn write_row(model: &mut [u64], i: usize, e: StateEstimate)
    requires { 7 * i + 7 ≤ length model.old }
    ensures { model.new ≡ sets model.old (7 * i) (row_words e) }
{
    let row = [
        e.imbalance_bucket,
        e.spread_ticks,
        e.observations,
        float_word(e.first_adjustment),
        float_word(e.adjustment),
        float_word(e.fallback_within_moves),
        e.status,
    ];
    model[7 * i..7 * i + 7].copy_from_slice(&row);
}

// Reads the row of state i. Here alone are words read as an estimate, each named once: a `From<[u64; 7]>` is no plainer.
#[tactic(auto, using(crate::proofs::Rows::word_of_seven))]
pub fn read_row(model: &[u64], i: usize) -> StateEstimate
    requires { 7 * i + 7 ≤ length model.now }
    ensures { result ≡ row_at model.now i }
{
    let (rows, _) = model.as_chunks::<7>();
    let [bucket, spread, pairs, first, adjustment, share, status] = rows[i];
    StateEstimate {
        imbalance_bucket: bucket,
        spread_ticks: spread,
        observations: pairs,
        first_adjustment: floats::from_bits(first),
        adjustment: floats::from_bits(adjustment),
        fallback_within_moves: floats::from_bits(share),
        status,
    }
}
