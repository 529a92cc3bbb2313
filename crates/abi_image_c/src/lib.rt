// The functions of `abi_image` for callers in C, with its clauses: a static library exports the functions of its own crate alone.
// include/micro_price.h says how they are called.
#![tactic(auto)]

ghost use Rattle.std.specs.Prelude.{◌≡◌};
ghost use Rattle.abi_encoding.specs.Encoding.{lent};
ghost use Rattle.abi_image.specs.Images.{lent_out, save_words, lent_back, restore_words};

// Writes the image of a calibrator.
#[unsafe(no_mangle)]
pub extern "C" fn micro_price_save(
    config: &[u64],
    rec: &[u64],
    stay: &[u64],
    moved: &[u64],
    move_half_ticks: &[i64],
    out: &mut [u8],
) -> u64
    ensures { lent_out result out.new ≡ save_words config.now rec.now stay.now moved.now move_half_ticks.now out.old }
{
    abi_image::micro_price_save(config, rec, stay, moved, move_half_ticks, out)
}

// Takes an image back: fills the configuration, the record and the tables. A refusal writes nothing.
#[unsafe(no_mangle)]
pub extern "C" fn micro_price_restore(
    image: &[u8],
    config: &mut [u64],
    rec: &mut [u64],
    stay: &mut [u64],
    moved: &mut [u64],
    move_half_ticks: &mut [i64],
) -> u64
    ensures { lent_back config.new (lent result rec.new stay.new moved.new move_half_ticks.new)
        ≡ restore_words image.now config.old rec.old stay.old moved.old move_half_ticks.old }
{
    abi_image::micro_price_restore(image, config, rec, stay, moved, move_half_ticks)
}
