// An evening's calibration (document 01, "An evening's calibration"): the window of a recording counted from new, and fitted.
#![tactic(auto)]

use calibrator::Record;
use config::MicroPriceConfig;
use recording::Recorded;
use refusals::Refusal;
use tally::LentTables;

pub mod inner;

ghost use Rattle.std.specs.Prelude.{◌≡◌};
ghost use Rattle.tally.specs.Lent.{tables_of, SameSlices};
ghost use Rattle.calibrator.specs.Record.{memory_with};
ghost use Rattle.evening.specs.Evening.{end_evening, calibrated};

// Counts the quotes of the window from new, and fits the counts. An `Err` is a refusal before the fit; an `Ok` has the fit's answer,
// nothing refused or 16 to 19.
pub fn calibrate_micro_price(
    rec: &mut Record,
    tables: &mut LentTables<'_>,
    config: MicroPriceConfig,
    recording: &[u64],
    start: u64,
    end: u64,
    scratch: &mut [f64],
    model: &mut [u64],
) -> Result<Recorded, Refusal>
    ensures left { end_evening result (memory_with rec.new (tables_of tables.new)) model.new scratch.new
        ≡ calibrated config (memory_with rec.old (tables_of tables.old)) recording.now start end model.old scratch.old }
    ensures same_slices { SameSlices tables.old tables.new }
{
    let ends = recording::window_of(recording, start, end)?;
    fit::inner::check_lengths(config, tables.view(), scratch.len(), model.len())?;
    let part = recording::inner::part_of(recording, ends);
    inner::count_and_fit(rec, tables, config, part, scratch, model)
}
