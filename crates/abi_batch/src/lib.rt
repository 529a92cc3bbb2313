// Document 01's evening and the replay of a journal for callers in C and Rust: numbers and lent slices alone. include/micro_price.h says how they are called.
// They are apart from `abi_counting`, so that the counting of a quote has one caller in each archive and is compiled into it.
#![tactic(auto)]

ghost use Rattle.std.specs.Prelude.{◌≡◌, [], length};
ghost use Rattle.calibrator.specs.Record.{memory};
ghost use Rattle.abi_encoding.specs.Encoding.{record_length, lent};
ghost use Rattle.abi_batch.specs.Batch.{lent_evening, evening_number, invalid_after, has_counted, record_after_evening, calibrate_words, lent_replay, PromisedWords};

use abi_encoding::BAD_ENCODING;
use calibrator::Record;
use recording::Recorded;
use refusals::Refusal;
use tally::LentTables;

// An evening's answer as a number; with a fit's answer the number of invalid quotes is written.
fn put_invalid(answer: Result<Recorded, Refusal>, invalid: &mut u64) -> u64
    ensures { (result ≡ evening_number answer) × (invalid.new ≡ invalid_after answer invalid.old) }
{
    match answer {
        Ok(counted) => {
            *invalid = counted.invalid;
            refusals::check_number(counted.answer)
        }
        Err(refusal) => refusal.number(),
    }
}

// Whether quotes were counted: there is a fit's answer, or a quote stopped the count.
fn has_counted(answer: Result<Recorded, Refusal>) -> bool
    ensures { result ≡ has_counted answer }
{
    match answer {
        Ok(_) => true,
        Err(refusal) => matches!(refusal, Refusal::OverDomain | Refusal::CountLimit),
    }
}

// Writes the record where quotes were counted. Its caller has as many words.
fn put_counted(rec: &mut [u64], answer: Result<Recorded, Refusal>, next: Record)
    requires { length rec.old ≡ record_length }
    ensures { rec.new ≡ record_after_evening answer rec.old (memory next [] [] []) }
{
    if has_counted(answer) {
        abi_encoding::put_record(rec, next);
    }
}

// Counts the quotes of the window from new, and fits the counts. At 0 and at 16 to 19 invalid is the number of invalid quotes. The record may be any ten words;
// it is written at 0, 2, 6 and 16 to 19.
#[unsafe(no_mangle)]
pub extern "C" fn micro_price_calibrate(
    config: &[u64],
    rec: &mut [u64],
    stay: &mut [u64],
    moved: &mut [u64],
    move_half_ticks: &mut [i64],
    recording: &[u64],
    start: u64,
    end: u64,
    scratch: &mut [f64],
    model: &mut [u64],
    invalid: &mut u64,
) -> u64
    ensures { lent_evening result rec.new stay.new moved.new move_half_ticks.new model.new scratch.new invalid.new
        ≡ calibrate_words config.now rec.old stay.old moved.old move_half_ticks.old recording.now start end model.old scratch.old invalid.old }
{
    if !abi_encoding::right_words(config, rec) {
        return BAD_ENCODING;
    }
    let mut next = abi_encoding::record_of(rec);
    let mut tables = LentTables {
        stay,
        moved,
        move_half_ticks,
    };
    let answer = evening::calibrate_micro_price(
        &mut next,
        &mut tables,
        config::inner::config_of(config),
        recording,
        start,
        end,
        scratch,
        model,
    );
    put_counted(rec, answer, next);
    put_invalid(answer, invalid)
}

// Runs an encoded list of calls and writes each one's answer.
#[unsafe(no_mangle)]
pub extern "C" fn micro_price_replay(
    config: &[u64],
    rec: &mut [u64],
    stay: &mut [u64],
    moved: &mut [u64],
    move_half_ticks: &mut [i64],
    calls: &[u64],
    room: &mut [u8],
    answers: &mut [u64],
) -> u64
    ensures { PromisedWords config.now rec.old stay.old moved.old move_half_ticks.old calls.now room.old answers.old
        (lent_replay answers.new room.new (lent result rec.new stay.new moved.new move_half_ticks.new)) }
{
    if !abi_encoding::is_encoded(config, rec) {
        return BAD_ENCODING;
    }
    let mut next = abi_encoding::record_of(rec);
    let config = config::inner::config_of(config);
    let mut tables = LentTables {
        stay,
        moved,
        move_half_ticks,
    };
    match history_replay::replay(&mut next, &mut tables, config, calls, room, answers) {
        Ok(()) => {
            abi_encoding::put_record(rec, next);
            0
        }
        Err(_) => BAD_ENCODING,
    }
}
