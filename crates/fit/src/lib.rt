// The fit of a model to the counts (document 01, "The fit", and document 02, Q-10). The record, the tables, the scratch and the model table are lent.
#![tactic(auto)]

use calibrator::Record;
use config::MicroPriceConfig;
use fit_rounds::Rounds;
use refusals::Refusal;
use tally::TablesView;

pub mod inner;

ghost use Rattle.std.specs.Prelude.{◌≡◌};
ghost use Rattle.tally.specs.Lent.{tables_in};
ghost use Rattle.calibrator.specs.Record.{memory_with};
ghost use Rattle.fit.specs.Fit.{end_fit, fitted_with, fit_counts};

// Fits the model: writes a row of seven words for each state. Scratch is N × (2 N + 10) floats. The rounds are the defaults.
pub fn fit_counts(
    rec: &Record,
    tables: TablesView<'_>,
    config: MicroPriceConfig,
    scratch: &mut [f64],
    model: &mut [u64],
) -> Result<(), Refusal>
    ensures { end_fit result model.new scratch.new ≡ fit_counts config (memory_with rec.now (tables_in tables.entry)) model.old scratch.old }
{
    fit_counts_with(rec, tables, config, Rounds::default(), scratch, model)
}

// Fits the model with at most so many rounds of the series, and so many of the share.
pub fn fit_counts_with(
    rec: &Record,
    tables: TablesView<'_>,
    config: MicroPriceConfig,
    rounds: Rounds,
    scratch: &mut [f64],
    model: &mut [u64],
) -> Result<(), Refusal>
    ensures { end_fit result model.new scratch.new
        ≡ fitted_with rounds.series rounds.fallback config (memory_with rec.now (tables_in tables.entry)) model.old scratch.old }
{
    inner::fit_counts_with(*rec, tables, config, rounds, scratch, model)
}
