// The check of counts against their mirrors (document 01, "The fit": 6, 9, 10, 11), of tables that lie in lent slices or in an image.
// Inner functions: for the crates above, not for users. Where one has a `requires`, each caller proves it.
#![tactic(auto)]

ghost use Rattle.std.specs.Prelude.{◌≡◌, ℕ, ◌+◌, ◌*◌, ◌≤◌, ◌<◌, min, pos, length, get_or};
ghost use Rattle.basics.specs.Lists.{any, sum};
ghost use Rattle.basics.specs.Domain.{counter_limit};
ghost use Rattle.refusals.specs.Refusals.{first_from};
ghost use Rattle.config.specs.Configuration.{states};
ghost use Rattle.config.specs.Inner.{Valid};
ghost use Rattle.quotes.specs.States.{mirror_of};
ghost use Rattle.tally.specs.Entries.{Tables, over_total};
ghost use Rattle.tally.specs.Lent.{tables_in};
ghost use Rattle.calibrator.specs.Record.{counts_of};
ghost use Rattle.count_check.specs.Mirrors.{total_mirrored, cell_mirrored, row_mirrored, check_state, is_twice, check_counts, check_mirrored};
ghost use Rattle.count_check.specs.Inner.{counters_over, words_in, tables_in_bytes, HasTables, Mirrors};

use basics::{CELL_LIMIT, COUNTER_LIMIT};
use calibrator::Counters;
use config::MicroPriceConfig;
use quotes::inner::Level;
use refusals::Refusal;
use tally::TablesView;

// The three tables of counts, wherever they lie.
pub trait Counted {
    ghost held: { Self → Tables };

    fn stay_cell(&self, i: usize) -> u64
        requires { i < length (held self.now).stay }
        ensures { result ≡ get_or (held self.now).stay i 0 };

    fn moved_cell(&self, i: usize) -> u64
        requires { i < length (held self.now).moved }
        ensures { result ≡ get_or (held self.now).moved i 0 };

    fn total(&self, i: usize) -> i64
        requires { i < length (held self.now).totals }
        ensures { result ≡ get_or (held self.now).totals i (pos 0) };
}

// Tables in lent slices.
impl<'a> Counted for TablesView<'a> {
    ghost held = { λ s. tables_in s };

    fn stay_cell(&self, i: usize) -> u64 {
        self.stay[i]
    }

    fn moved_cell(&self, i: usize) -> u64 {
        self.moved[i]
    }

    fn total(&self, i: usize) -> i64 {
        self.move_half_ticks[i]
    }
}

// Tables in the bytes of an image, a part for each.
#[derive(Clone, Copy)]
pub struct Imaged<'a> {
    pub stay: &'a [u8],
    pub moved: &'a [u8],
    pub move_half_ticks: &'a [u8],
}

fn word_in(bytes: &[u8], i: usize) -> u64
    requires { i < length (words_in bytes.now) }
    ensures { result ≡ get_or (words_in bytes.now) i 0 }
{
    image_words::get_word(bytes, 8 * i)
}

impl<'a> Counted for Imaged<'a> {
    ghost held = { λ s. tables_in_bytes s.stay.now s.moved.now s.move_half_ticks.now };

    fn stay_cell(&self, i: usize) -> u64 {
        word_in(self.stay, i)
    }

    fn moved_cell(&self, i: usize) -> u64 {
        word_in(self.moved, i)
    }

    fn total(&self, i: usize) -> i64 {
        word_in(self.move_half_ticks, i).cast_signed()
    }
}

fn counters_over(k: Counters) -> bool
    ensures { result ≡ counters_over k }
{
    (COUNTER_LIMIT < k.pairs)
        | (COUNTER_LIMIT < k.skipped_spread_pairs)
        | (COUNTER_LIMIT < k.skipped_gap_pairs)
}

// The tables of n states, wherever they lie, with the table of the states' mirrors.
#[derive(Drop)]
pub struct MirroredTables<'a, 'm, S: Counted> {
    pub n: usize,
    pub mirrors: &'m [usize],
    pub source: &'a S,
    pub ghost has_tables: { HasTables n (S.held source.now) },
    pub ghost has_mirrors: { Mirrors n mirrors.now },
}

impl<S: Counted> MirroredTables<'_, '_, S> {
    fn totals_over(&self) -> bool
        ensures { result ≡ any over_total (S.held self.now.source.now).totals }
    {
        (0..self.n).any(|i| CELL_LIMIT < self.source.total(i).unsigned_abs())
    }

    // The total of the mirror of i is that of i negated.
    fn total_mirrored(&self, i: usize) -> bool
        requires { i < self.now.n }
        ensures { result ≡ total_mirrored (S.held self.now.source.now).totals i (get_or self.now.mirrors.now i 0) }
    {
        self.source.total(i).checked_neg() == Some(self.source.total(self.mirrors[i]))
    }

    // The sum of all cells, or `u64::MAX` where it is more.
    fn sum_capped(&self) -> u64
        ensures { result ≡ min u64.MAX (sum (S.held self.now.source.now).stay + sum (S.held self.now.source.now).moved) }
    {
        let cells = self.n * self.n;
        let stay = (0..cells).fold(0u64, |sum, i| sum.saturating_add(self.source.stay_cell(i)));
        (0..cells).fold(stay, |sum, i| sum.saturating_add(self.source.moved_cell(i)))
    }

    // Twice the pairs is below the cap.
    fn is_twice(&self, pairs: u64) -> bool
        requires { pairs ≤ counter_limit }
        ensures { result ≡ is_twice pairs (S.held self.now.source.now) }
    {
        self.sum_capped() == 2 * pairs
    }

    // In both tables the cell of states i and j equals its mirror's.
    fn cell_mirrored(&self, i: usize, j: usize) -> bool
        requires { (i < self.now.n) × (j < self.now.n) }
        ensures { result ≡ cell_mirrored self.now.n (λ k. get_or self.now.mirrors.now k 0) (S.held self.now.source.now) i j }
    {
        let x = tally::cell(self.n, i, j);
        let y = tally::cell(self.n, self.mirrors[i], self.mirrors[j]);
        (self.source.stay_cell(x) == self.source.stay_cell(y))
            & (self.source.moved_cell(x) == self.source.moved_cell(y))
    }

    fn row_mirrored(&self, i: usize) -> bool
        requires { i < self.now.n }
        ensures { result ≡ row_mirrored self.now.n (λ k. get_or self.now.mirrors.now k 0) (S.held self.now.source.now) i }
    {
        (0..self.n).all(|j| self.cell_mirrored(i, j))
    }

    // A state's total (9), then its row of cells (10).
    fn check_state(&self, i: usize) -> Result<(), Refusal>
        requires { i < self.now.n }
        ensures { result ≡ check_state self.now.n (λ k. get_or self.now.mirrors.now k 0) (S.held self.now.source.now) i }
    {
        if !self.total_mirrored(i) {
            return Err(Refusal::TotalsUnmirrored);
        }
        if !self.row_mirrored(i) {
            return Err(Refusal::CellsUnmirrored);
        }
        Ok(())
    }

    fn check_states(&self) -> Result<(), Refusal>
        ensures { result ≡ first_from (check_state self.now.n (λ k. get_or self.now.mirrors.now k 0) (S.held self.now.source.now)) 0 self.now.n }
    {
        for i in 0..self.n {
            self.check_state(i)?;
        }
        Ok(())
    }

    // The check of n states with their mirrors.
    pub fn check_counts(&self, counters: Counters) -> Result<(), Refusal>
        ensures { result ≡ check_counts self.now.n (λ k. get_or self.now.mirrors.now k 0) (counts_of counters (S.held self.now.source.now)) }
    {
        if counters_over(counters) || self.totals_over() {
            return Err(Refusal::CountLimit);
        }
        self.check_states()?;
        if !self.is_twice(counters.pairs) {
            return Err(Refusal::CellsNotTwicePairs);
        }
        Ok(())
    }
}

// The mirrors of a configuration's states, in one walk that knows the spread level of each. Room for the most states: no heap.
pub fn mirrors_of(config: MicroPriceConfig) -> [usize; 256]
    requires { Valid config }
    ensures { (i : ℕ) → i < states config → get_or result i 0 ≡ mirror_of config.imbalance_buckets i }
{
    let n = config::inner::state_count(config);
    let w = config.imbalance_buckets as usize;
    let mut r = [0usize; 256];
    let mut level = Level::FIRST;
    for (i, mirror) in r[..n].iter_mut().enumerate() {
        *mirror = quotes::inner::mirror_in(w, level.first, i);
        level = quotes::inner::level_after(w, level, i);
    }
    r
}

// The check under a configuration, of tables in slices or in bytes.
pub fn check_tables<S: Counted>(
    config: MicroPriceConfig,
    counters: Counters,
    source: &S,
) -> Result<(), Refusal>
    requires { Valid config × HasTables (states config) (S.held source.now) }
    ensures { result ≡ check_mirrored config (counts_of counters (S.held source.now)) }
{
    let mirrors = mirrors_of(config);
    let tables = MirroredTables {
        n: config::inner::state_count(config),
        mirrors: &mirrors,
        source,
    };
    tables.check_counts(counters)
}
