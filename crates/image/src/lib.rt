// The image of a calibrator: save and restore (document 01, "The image"). The record, the tables and the bytes are lent.
#![tactic(auto)]

use calibrator::Record;
use config::MicroPriceConfig;
use refusals::Refusal;
use tally::{LentTables, TablesView};

pub mod inner;

ghost use Rattle.std.specs.Prelude.{◌≡◌};
ghost use Rattle.tally.specs.Lent.{tables_of, tables_in, SameSlices};
ghost use Rattle.calibrator.specs.Record.{memory_with};
ghost use Rattle.image.specs.Image.{end_save, saved, end_restore, restored};

// What an image holds beside its tables.
#[derive(Clone, Copy)]
pub struct Restored {
    pub config: MicroPriceConfig,
    pub rec: Record,
}

// Writes the image of a calibrator.
pub fn save(
    rec: &Record,
    tables: TablesView<'_>,
    config: MicroPriceConfig,
    out: &mut [u8],
) -> Result<(), Refusal>
    ensures { end_save result out.new ≡ saved config (memory_with rec.now (tables_in tables.entry)) out.old }
{
    inner::save(*rec, tables, config, out)
}

// Takes an image back: answers its configuration, and fills the record and the tables.
pub fn restore(
    rec: &mut Record,
    image: &[u8],
    tables: &mut LentTables<'_>,
) -> Result<MicroPriceConfig, Refusal>
    ensures left { end_restore result (memory_with rec.new (tables_of tables.new)) ≡ restored image.now (memory_with rec.old (tables_of tables.old)) }
    ensures same_slices { SameSlices tables.old tables.new }
{
    let taken = inner::restore(image, tables)?;
    *rec = taken.rec;
    Ok(taken.config)
}
