// The calibrator: new and one quote (document 01, "New, and one quote"). Its record and tables are lent.
#![tactic(auto)]

use config::MicroPriceConfig;
use quotes::TopOfBook;
use refusals::Refusal;
use tally::LentTables;

pub mod inner;

ghost use Rattle.std.specs.Prelude.{◌≡◌};
ghost use Rattle.tally.specs.Lent.{tables_of, SameSlices};
ghost use Rattle.calibrator.specs.Record.{memory_with, leaves};
ghost use Rattle.calibrator.specs.Observe.{made, observed};

#[derive(Clone, Copy, Default)]
pub struct Counters {
    // Pairs counted, mirrors not included.
    pub pairs: u64,
    // Pairs left out for a spread out of range.
    pub skipped_spread_pairs: u64,
    // Pairs left out for a gap above `max_quote_gap_ms`.
    pub skipped_gap_pairs: u64,
    // The largest absolute mid move counted, in half ticks.
    pub largest_move_half_ticks: u64,
}

// What a calibrator keeps beside its tables; by default a new one's.
#[derive(Clone, Copy, Default)]
pub struct Record {
    // The last quote, if any.
    pub previous: Option<TopOfBook>,
    pub counters: Counters,
}

// Record and tables are lent, each by itself: that is document 01's form of an operation. So the configuration travels beside them.

// Empties the record and zeroes the three tables.
pub fn new(
    rec: &mut Record,
    tables: &mut LentTables<'_>,
    config: MicroPriceConfig,
) -> Result<(), Refusal>
    ensures left { leaves result rec.new (tables_of tables.new) ≡ made config (memory_with rec.old (tables_of tables.old)) }
    ensures same_slices { SameSlices tables.old tables.new }
{
    *rec = inner::new(tables, config)?;
    Ok(())
}

// Adds the next quote.
pub fn observe(
    rec: &mut Record,
    tables: &mut LentTables<'_>,
    config: MicroPriceConfig,
    quote: TopOfBook,
) -> Result<(), Refusal>
    ensures left { leaves result rec.new (tables_of tables.new) ≡ observed config (memory_with rec.old (tables_of tables.old)) quote }
    ensures same_slices { SameSlices tables.old tables.new }
{
    *rec = inner::observe(*rec, tables, config, quote)?;
    Ok(())
}
