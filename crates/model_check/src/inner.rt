// Inner functions of the model check; `ModelTable`, `half_spread_of` and `has_status` are for the signal too. Where one has a `requires`, each caller proves it.
ghost use Rattle.std.specs.Prelude.{◌≡◌, ◌&&◌, ℕ, ◌*◌, ◌<◌, length};
ghost use Rattle.refusals.specs.Refusals.{first_from};
ghost use Rattle.config.specs.Configuration.{states};
ghost use Rattle.config.specs.Inner.{Valid};
ghost use Rattle.config.specs.declared.MicroPriceConfig.{MicroPriceConfig};
ghost use Rattle.floats.specs.Floats.{minus_zero};
ghost use Rattle.quotes.specs.Inner.{HasLevel};
ghost use Rattle.model.specs.Rows.{row_at};
ghost use Rattle.model_check.specs.Check.{has_status, half_spread_of, bucket_is, spread_is, floats_finite, no_minus_zero, share_in_range, inside_quotes, outside_quotes, fallback_at_mid, state_mirrors, row_fine, check_row};

use config::MicroPriceConfig;
use model::{StateEstimate, StateStatus};
use quotes::inner::Level;
use refusals::Refusal;

// By its bits: a comparison takes both zeros as equal.
fn is_minus_zero(x: f64) -> bool
    ensures { result ≡ minus_zero x }
{
    floats::to_bits(x) == 0x8000_0000_0000_0000
}

// Whether a row has a status; its word may be none's.
pub fn has_status(e: StateEstimate, status: StateStatus) -> bool
    ensures { result ≡ has_status status e }
{
    e.status == u64::from(status)
}

// Half the spread of state i, of a configuration alone: a caller need not have a table.
pub fn half_spread_of(config: MicroPriceConfig, i: usize) -> f64
    requires { Valid config × (i < states config) }
    ensures { result ≡ half_spread_of config i }
{
    let n = config.imbalance_buckets as usize;
    floats::inner::half_spread(config.tick_size, (i / n + 1) as u64)
}

fn is_placed(config: MicroPriceConfig, level: Level, i: usize, e: StateEstimate) -> bool
    requires { HasLevel config.imbalance_buckets level i × (i < 256) }
    ensures { result ≡ (bucket_is config i e && spread_is config i e) }
{
    (e.imbalance_bucket == (i - level.first + 1) as u64) & (e.spread_ticks == level.spread)
}

fn floats_finite(e: StateEstimate) -> bool
    ensures { result ≡ floats_finite e }
{
    floats::is_finite(e.first_adjustment)
        & floats::is_finite(e.adjustment)
        & floats::is_finite(e.fallback_within_moves)
}

fn no_minus_zero(e: StateEstimate) -> bool
    ensures { result ≡ no_minus_zero e }
{
    !is_minus_zero(e.first_adjustment)
        & !is_minus_zero(e.adjustment)
        & !is_minus_zero(e.fallback_within_moves)
}

fn state_values_are_consistent(e: StateEstimate) -> bool
    ensures { result ≡ (share_in_range e && fallback_at_mid e) }
{
    let share = e.fallback_within_moves;
    (0.0 <= share)
        & (share <= 1.0)
        & (!(has_status(e, StateStatus::Rare) | has_status(e, StateStatus::NoPriceMove))
            | ((share == 1.0) & (e.adjustment == 0.0)))
}

// Whether the adjustment is within half the spread, or outside, as the status says.
fn is_on_its_side(half: f64, e: StateEstimate) -> bool
    ensures { (config : MicroPriceConfig) (i : ℕ) → half ≡ half_spread_of config i → result ≡ (inside_quotes config i e && outside_quotes config i e) }
{
    let size = floats::abs(e.adjustment);
    (!has_status(e, StateStatus::Calibrated) | (size <= half))
        & (!has_status(e, StateStatus::OutsideQuotes) | (half < size))
}

fn state_mirrors(e: StateEstimate, mirror: StateEstimate) -> bool
    ensures { result ≡ state_mirrors e mirror }
{
    (e.status == mirror.status)
        & (e.observations == mirror.observations)
        & (e.adjustment + mirror.adjustment == 0.0)
        & (e.first_adjustment + mirror.first_adjustment == 0.0)
}

// A model table whose configuration is valid, with seven words for each state of it: refusals 1 and 7 are judged.
#[derive(Clone, Copy)]
pub struct ModelTable<'a> {
    pub config: MicroPriceConfig,
    pub rows: &'a [u64],
    pub ghost valid: { Valid config },
    pub ghost whole: { length rows.now ≡ 7 * states config },
}

impl<'a> ModelTable<'a> {
    ghost use Rattle.model_check.specs.InnerTable.{TableJudged};

    // The table of these words, unless 1 or 7 refuses it.
    pub fn of(config: MicroPriceConfig, rows: &'a [u64]) -> Result<ModelTable<'a>, Refusal>
        ensures { TableJudged config rows.now result }
    {
        config.validate()?;
        if rows.len() != 7 * config::inner::state_count(config) {
            return Err(Refusal::SliceLength);
        }
        Ok(ModelTable { config, rows })
    }

    // The estimate of state i.
    pub fn row(&self, i: usize) -> StateEstimate
        requires { i < states self.now.config }
        ensures { result ≡ row_at self.now.rows.now i }
    {
        model::inner::read_row(self.rows, i)
    }

    // Half the spread of state i.
    pub fn half_spread_of(&self, i: usize) -> f64
        requires { i < states self.now.config }
        ensures { result ≡ half_spread_of self.now.config i }
    {
        half_spread_of(self.config, i)
    }

    #[tactic(auto, unfolding(crate::specs::Check::row_fine))]
    fn row_fine(&self, level: Level, i: usize, e: StateEstimate, mirror: StateEstimate) -> bool
        requires { HasLevel self.now.config.imbalance_buckets level i × (i < states self.now.config) }
        ensures { result ≡ row_fine self.now.config i e mirror }
    {
        let half = floats::inner::half_spread(self.config.tick_size, level.spread);
        // The rule is of the word itself: `try_from(e.status).is_ok()` says it less plainly.
        is_placed(self.config, level, i, e)
            & (e.status <= 3)
            & floats_finite(e)
            & no_minus_zero(e)
            & state_values_are_consistent(e)
            & is_on_its_side(half, e)
            & state_mirrors(e, mirror)
    }

    // Row i, of a state whose spread level is known: in a clause, since a struct of both would still have to say that its n is the configuration's.
    fn check_row(&self, level: Level, i: usize) -> Result<(), Refusal>
        requires { HasLevel self.now.config.imbalance_buckets level i × (i < states self.now.config) }
        ensures { result ≡ check_row self.now.config self.now.rows.now i }
    {
        let m = quotes::inner::mirror_in(self.config.imbalance_buckets as usize, level.first, i);
        if !self.row_fine(level, i, self.row(i), self.row(m)) {
            return Err(Refusal::ModelRow(i));
        }
        Ok(())
    }

    // All rows, in one walk that knows the spread level of each state.
    pub fn check_rows(&self) -> Result<(), Refusal>
        ensures { result ≡ first_from (check_row self.now.config self.now.rows.now) 0 (states self.now.config) }
    {
        let w = self.config.imbalance_buckets as usize;
        let mut level = Level::FIRST;
        for i in 0..config::inner::state_count(self.config) {
            self.check_row(level, i)?;
            level = quotes::inner::level_after(w, level, i);
        }
        Ok(())
    }
}
