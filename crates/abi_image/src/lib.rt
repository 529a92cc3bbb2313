// Document 01's save and restore for callers in C and Rust: numbers and lent slices alone. include/micro_price.h says how they are called.
// Words that are no configuration or no record are answered with BAD_ENCODING before all else, but restore takes any words of the right lengths for those that
// it overwrites. Every other answer is 0 or the number of a refusal.
#![tactic(auto)]

ghost use Rattle.std.specs.Prelude.{◌≡◌, true, length};
ghost use Rattle.config.specs.Configuration.{is_config};
ghost use Rattle.tally.specs.Entries.{Tables};
ghost use Rattle.calibrator.specs.declared.Record.{Record};
ghost use Rattle.image.specs.Image.{restored_by};
ghost use Rattle.abi_encoding.specs.Encoding.{record_length, lent};
ghost use Rattle.abi_image.specs.Images.{lent_out, save_words, lent_back, of_taken, restore_words};

use abi_encoding::BAD_ENCODING;
use image::Restored;
use refusals::Refusal;
use tally::{LentTables, TablesView};

// Writes the image of a calibrator.
#[unsafe(no_mangle)]
pub extern "C" fn micro_price_save(
    config: &[u64],
    rec: &[u64],
    stay: &[u64],
    moved: &[u64],
    move_half_ticks: &[i64],
    out: &mut [u8],
) -> u64
    ensures { lent_out result out.new ≡ save_words config.now rec.now stay.now moved.now move_half_ticks.now out.old }
{
    if !abi_encoding::is_encoded(config, rec) {
        return BAD_ENCODING;
    }
    let tables = TablesView {
        stay,
        moved,
        move_half_ticks,
    };
    let saved = image::inner::save(
        abi_encoding::record_of(rec),
        tables,
        config::inner::config_of(config),
        out,
    );
    refusals::check_number(saved)
}

// Writes the configuration and the record that restore answers; a refusal writes nothing. Its caller has as many words.
fn put_restored(config: &mut [u64], rec: &mut [u64], taken: Result<Restored, Refusal>) -> u64
    requires { (is_config config.old ≡ true) × (length rec.old ≡ record_length) }
    ensures { (before : Record) (t : Tables)
        → lent_back config.new (lent result rec.new t.stay t.moved t.totals) ≡ of_taken config.old rec.old (restored_by before taken t) }
{
    match taken {
        Ok(restored) => {
            abi_encoding::put_record(rec, restored.rec);
            config::inner::put_config(config, restored.config);
            0
        }
        Err(refusal) => refusal.number(),
    }
}

// Takes an image back: fills the configuration, the record and the tables. A refusal writes nothing.
#[unsafe(no_mangle)]
pub extern "C" fn micro_price_restore(
    image: &[u8],
    config: &mut [u64],
    rec: &mut [u64],
    stay: &mut [u64],
    moved: &mut [u64],
    move_half_ticks: &mut [i64],
) -> u64
    ensures { lent_back config.new (lent result rec.new stay.new moved.new move_half_ticks.new)
        ≡ restore_words image.now config.old rec.old stay.old moved.old move_half_ticks.old }
{
    if !abi_encoding::right_words(config, rec) {
        return BAD_ENCODING;
    }
    let mut tables = LentTables {
        stay,
        moved,
        move_half_ticks,
    };
    let taken = image::inner::restore(image, &mut tables);
    put_restored(config, rec, taken)
}
