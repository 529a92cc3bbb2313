// Inner functions: for `calibrate_micro_price`, not for users. Where one has a `requires`, its caller proves it.
ghost use Rattle.std.specs.Prelude.{◌≡◌, false, Ok};
ghost use Rattle.tally.specs.Lent.{tables_of, SameSlices};
ghost use Rattle.calibrator.specs.Record.{memory_with};
ghost use Rattle.calibrator.specs.Observe.{check_lent, fresh};
ghost use Rattle.recording.specs.Recording.{quotes_of, uneven};
ghost use Rattle.recording.specs.Observe.{recorded};
ghost use Rattle.evening.specs.Evening.{end_evening, counted};

use calibrator::Record;
use config::MicroPriceConfig;
use recording::Recorded;
use refusals::Refusal;
use tally::LentTables;

// A part of a recording given to a new calibrator, then the fit. A quote that stops it leaves a new calibrator.
pub fn count_and_fit(
    rec: &mut Record,
    tables: &mut LentTables<'_>,
    config: MicroPriceConfig,
    part: &[u64],
    scratch: &mut [f64],
    model: &mut [u64],
) -> Result<Recorded, Refusal>
    requires { (check_lent config (tables_of tables.old) ≡ Ok tt) × (uneven part.now ≡ false) }
    ensures left { end_evening result (memory_with rec.new (tables_of tables.new)) model.new scratch.new
        ≡ counted config (recorded config (quotes_of part.now) 0 (fresh config)) model.old scratch.old }
    ensures same_slices { SameSlices tables.old tables.new }
{
    // The lengths are judged: no `?` here answers.
    calibrator::new(rec, tables, config)?;
    let observed = recording::inner::observe_recording(rec, tables, config, part);
    if let Err(refusal) = observed.answer {
        calibrator::new(rec, tables, config)?;
        return Err(refusal);
    }
    let answer = fit::fit_counts(rec, tables.view(), config, scratch, model);
    Ok(Recorded {
        answer,
        invalid: observed.invalid,
    })
}
