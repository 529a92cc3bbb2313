// The work by value, for Rattle callers, and the functions that it is made of. Beside the operations, which are thin over it: docs/DECISIONS.md.
// `save`, `restore` and `check_restore` ask nothing; where another has a `requires`, each caller proves it.
ghost use Rattle.std.specs.Prelude.{◌≡◌, false, ◌+◌, ◌*◌, ◌≤◌, length};
ghost use Rattle.config.specs.Configuration.{states};
ghost use Rattle.config.specs.Inner.{Valid};
ghost use Rattle.tally.specs.Lent.{tables_of, tables_in, SameSlices};
ghost use Rattle.calibrator.specs.Record.{memory_with};
ghost use Rattle.calibrator.specs.Observe.{broken, lent_wrong};
ghost use Rattle.image_layout.specs.Layout.{newest, image_length, image, config_in, memory_in};
ghost use Rattle.image.specs.Image.{end_save, saved, save_refusal, restored, held_refusal, restore_refusal, restored_by};
ghost use Rattle.image.specs.Inner.{Readable};
ghost use Rattle.calibrator.specs.declared.Record.{Record};

use super::Restored;
use calibrator::Record;
use config::MicroPriceConfig;
use image_layout::Header;
use quotes::TopOfBook;
use refusals::Refusal;
use tally::{LentTables, TablesView};

// Whether a last quote would be refused by 2, 3 or 4.
fn is_broken(config: MicroPriceConfig, previous: Option<TopOfBook>) -> bool
    requires { 1 ≤ config.tick_size }
    ensures { result ≡ broken config previous }
{
    previous.is_some_and(|q| quotes::inner::check_quote(config, q).is_err())
}

fn check_save(
    rec: Record,
    tables: TablesView<'_>,
    config: MicroPriceConfig,
    long: usize,
) -> Result<(), Refusal>
    ensures { result ≡ save_refusal config (memory_with rec (tables_in tables.entry)) long }
{
    calibrator::inner::check_table_lengths(
        config,
        tables.stay.len(),
        tables.moved.len(),
        tables.move_half_ticks.len(),
    )?;
    if long != image_layout::image_length(config) {
        return Err(Refusal::SliceLength);
    }
    if is_broken(config, rec.previous) {
        return Err(Refusal::LastQuoteBroken);
    }
    count_check::check_tables(config, rec.counters, &tables)
}

fn write_image(rec: Record, tables: TablesView<'_>, config: MicroPriceConfig, out: &mut [u8])
    requires { Valid config × (lent_wrong (states config) (tables_in tables) ≡ false) × (length out.old ≡ image_length newest config) }
    ensures { out.new ≡ image newest config (memory_with rec (tables_in tables.entry)) }
{
    let cells = image_layout::cell_count(config);
    let h = image_layout::header_words(config, rec);
    image_words::put_table(out, 0, &h);
    image_words::put_table(out, image_layout::HEADER, tables.stay);
    image_words::put_table(out, image_layout::HEADER + 8 * cells, tables.moved);
    image_words::put_table(
        out,
        image_layout::HEADER + 16 * cells,
        tables.move_half_ticks,
    );
}

// The work of `save` on a record by value.
pub fn save(
    rec: Record,
    tables: TablesView<'_>,
    config: MicroPriceConfig,
    out: &mut [u8],
) -> Result<(), Refusal>
    ensures { end_save result out.new ≡ saved config (memory_with rec (tables_in tables.entry)) out.old }
{
    check_save(rec, tables, config, out.len())?;
    write_image(rec, tables, config, out);
    Ok(())
}

// Refusals 7 and 8, then 6, 9, 10 and 11, of an image whose header is judged.
fn check_held(header: &Header<'_>, tables: TablesView<'_>) -> Result<(), Refusal>
    requires { let b = header.now.bytes.now in Valid (config_in newest b) × (length b ≡ image_length newest (config_in newest b)) }
    ensures { result ≡ held_refusal newest header.now.bytes.now (tables_in tables.entry) }
{
    let b = header.bytes;
    let config = header.config();
    let rec = header.record();
    let n = config::inner::state_count(config);
    if calibrator::inner::wrong_lengths(
        n,
        tables.stay.len(),
        tables.moved.len(),
        tables.move_half_ticks.len(),
    ) {
        return Err(Refusal::SliceLength);
    }
    if is_broken(config, rec.previous) {
        return Err(Refusal::LastQuoteBroken);
    }
    let cells = image_layout::cell_count(config);
    let moved_at = image_layout::HEADER + 8 * cells;
    let totals_at = image_layout::HEADER + 16 * cells;
    let imaged = count_check::Imaged {
        stay: &b[image_layout::HEADER..moved_at],
        moved: &b[moved_at..totals_at],
        move_half_ticks: &b[totals_at..],
    };
    count_check::check_tables(config, rec.counters, &imaged)
}

// What refuses an image, judged on its bytes before anything is written.
pub fn check_restore(b: &[u8], tables: TablesView<'_>) -> Result<(), Refusal>
    ensures { result ≡ restore_refusal b.now (tables_in tables.entry) }
{
    // By `else`, and no `ok_or`: what `of` says of the header would be lost.
    let Some(header) = Header::of(b) else {
        return Err(Refusal::ImageLayout);
    };
    header.config().validate()?;
    if !header.is_laid_out() {
        return Err(Refusal::ImageLayout);
    }
    check_held(&header, tables)
}

fn read_tables(b: &[u8], tables: &mut LentTables<'_>)
    requires { Readable newest b.now (tables_of tables.old) }
    ensures read { tables_of tables.new ≡ (memory_in newest b.now).counts.tables }
    ensures same_slices { SameSlices tables.old tables.new }
{
    let cells = tables.stay.len();
    image_words::get_table(b, image_layout::HEADER, tables.stay);
    image_words::get_table(b, image_layout::HEADER + 8 * cells, tables.moved);
    image_words::get_table(b, image_layout::HEADER + 16 * cells, tables.move_half_ticks);
}

// The work of `restore`: the configuration and the record of the image.
pub fn restore(image: &[u8], tables: &mut LentTables<'_>) -> Result<Restored, Refusal>
    ensures left { (rec : Record) → restored_by rec result (tables_of tables.new) ≡ restored image.now (memory_with rec (tables_of tables.old)) }
    ensures same_slices { SameSlices tables.old tables.new }
{
    check_restore(image, tables.view())?;
    // Read again: a check that answered the header would answer more than a refusal, and the replay wants the refusal alone.
    let header = Header::of(image).unwrap();
    read_tables(image, tables);
    Ok(Restored {
        config: header.config(),
        rec: header.record(),
    })
}
