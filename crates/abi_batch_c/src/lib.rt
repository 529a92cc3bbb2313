// The functions of `abi_batch` for callers in C, with its clauses: a static library exports the functions of its own crate alone.
// include/micro_price.h says how they are called. They are apart from those of `abi_counting_c`:
// crates/abi_batch says why.
#![tactic(auto)]

ghost use Rattle.std.specs.Prelude.{◌≡◌};
ghost use Rattle.abi_encoding.specs.Encoding.{lent};
ghost use Rattle.abi_batch.specs.Batch.{lent_evening, calibrate_words, lent_replay, PromisedWords};

// Counts the quotes of the window from new, and fits the counts. At 0 and at 16 to 19 invalid is the number of invalid quotes. The record may be any ten words;
// it is written at 0, 2, 6 and 16 to 19.
#[unsafe(no_mangle)]
pub extern "C" fn micro_price_calibrate(
    config: &[u64],
    rec: &mut [u64],
    stay: &mut [u64],
    moved: &mut [u64],
    move_half_ticks: &mut [i64],
    recording: &[u64],
    start: u64,
    end: u64,
    scratch: &mut [f64],
    model: &mut [u64],
    invalid: &mut u64,
) -> u64
    ensures { lent_evening result rec.new stay.new moved.new move_half_ticks.new model.new scratch.new invalid.new
        ≡ calibrate_words config.now rec.old stay.old moved.old move_half_ticks.old recording.now start end model.old scratch.old invalid.old }
{
    abi_batch::micro_price_calibrate(
        config,
        rec,
        stay,
        moved,
        move_half_ticks,
        recording,
        start,
        end,
        scratch,
        model,
        invalid,
    )
}

// Runs an encoded list of calls and writes each one's answer.
#[unsafe(no_mangle)]
pub extern "C" fn micro_price_replay(
    config: &[u64],
    rec: &mut [u64],
    stay: &mut [u64],
    moved: &mut [u64],
    move_half_ticks: &mut [i64],
    calls: &[u64],
    room: &mut [u8],
    answers: &mut [u64],
) -> u64
    ensures { PromisedWords config.now rec.old stay.old moved.old move_half_ticks.old calls.now room.old answers.old
        (lent_replay answers.new room.new (lent result rec.new stay.new moved.new move_half_ticks.new)) }
{
    abi_batch::micro_price_replay(
        config,
        rec,
        stay,
        moved,
        move_half_ticks,
        calls,
        room,
        answers,
    )
}
