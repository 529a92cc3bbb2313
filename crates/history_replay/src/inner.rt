// The functions that `replay` is made of. Where one has a `requires`, each caller proves it.
ghost use Rattle.std.specs.Prelude.{◌≡◌, length};
ghost use Rattle.tally.specs.Lent.{tables_of, tables_in, SameSlices};
ghost use Rattle.calibrator.specs.Record.{memory_with};
ghost use Rattle.history.specs.Calls.{quote, restore};
ghost use Rattle.history_replay.specs.Replay.{site, is_foreign, stepped_to};
ghost use Rattle.history_replay.specs.Inner.{CallEnds, coding, decoded, done_number, part_in, LiesIn, stepped_by};
ghost use Rattle.history_replay.specs.declared.inner.NotDone.TheVariants.{Refused};

use super::BadEncoding;
use calibrator::Record;
use config::MicroPriceConfig;
use image_layout::Header;
use quotes::TopOfBook;
use refusals::Refusal;
use tally::{LentTables, TablesView};

// The bytes of a save or a restore in the room, from `start` to `end`. No `Range<usize>`: that is not `Copy`.
#[derive(Clone, Copy)]
pub(crate) struct Part {
    start: usize,
    end: usize,
}

// A call as it is read from its words.
#[derive(Clone, Copy)]
pub(crate) enum CodedCall {
    Quote(TopOfBook),
    Save(Part),
    Restore(Part),
}

// Why a call is not done.
#[derive(Clone, Copy, Debug, PartialEq, Eq)]
pub(crate) enum NotDone {
    Refused(Refusal),
    // The image that it would restore has another configuration: the call is left out.
    OtherConfiguration,
}

impl From<Refusal> for NotDone {
    ghost from_gives = { λ refusal reason. reason ≡ Refused refusal };

    fn from(refusal: Refusal) -> NotDone {
        NotDone::Refused(refusal)
    }
}

// ---- images of another configuration

// The number of a restore of another configuration (the C interface has it).
pub const OTHER_CONFIGURATION: u64 = 101;

// Whether an image is of another configuration, and restore would take it.
fn is_foreign(config: MicroPriceConfig, bytes: &[u8], tables: TablesView<'_>) -> bool
    ensures { result ≡ is_foreign config bytes.now (tables_in tables.entry) }
{
    let Some(header) = Header::of(bytes) else {
        return false;
    };
    config != header.config() && image::inner::check_restore(bytes, tables).is_ok()
}

// ---- the encoding

// The bytes from `start` on, `long` of them, where they lie in the room.
fn part_in(room: usize, start: u64, long: u64) -> Result<Part, BadEncoding>
    ensures { result ≡ part_in room start long }
{
    let start = start as usize;
    match start.checked_add(long as usize) {
        Some(end) if end <= room => Ok(Part { start, end }),
        _ => Err(BadEncoding),
    }
}

// The call of six words, if they are one: a quote, or a save or restore whose bytes lie in the room. The kinds are the C interface's.
pub(crate) fn call_of(words: &[u64; 6], room: usize) -> Result<CodedCall, BadEncoding>
    ensures { result ≡ decoded room words.now 0 }
{
    match *words {
        [0, time, bid, ask, bid_size, ask_size] => {
            let quote = [time, bid, ask, bid_size, ask_size];
            Ok(CodedCall::Quote(TopOfBook::from(quote)))
        }
        [1, start, long, ..] => Ok(CodedCall::Save(part_in(room, start, long)?)),
        [2, start, long, ..] => Ok(CodedCall::Restore(part_in(room, start, long)?)),
        _ => Err(BadEncoding),
    }
}

// Whether the words are a call for each answer.
pub(crate) fn check_encoding(calls: &[u64], room: usize, answers: usize) -> Result<(), BadEncoding>
    ensures { result ≡ coding room answers calls.now }
{
    let (calls, rest) = calls.as_chunks::<6>();
    if !rest.is_empty() {
        return Err(BadEncoding);
    }
    if calls.len() != answers {
        return Err(BadEncoding);
    }
    for words in calls {
        call_of(words, room)?;
    }
    Ok(())
}

// ---- one call

// The number that is written: 0 of a call that is done, else that of the refusal or of the other configuration. No `From`: `Result` and `u64` are not of this
// crate.
pub(crate) fn done_number(done: Result<(), NotDone>) -> u64
    ensures { result ≡ done_number done }
{
    match done {
        Ok(()) => 0,
        Err(NotDone::Refused(refusal)) => refusal.number(),
        Err(NotDone::OtherConfiguration) => OTHER_CONFIGURATION,
    }
}

fn replay_quote(
    rec: &mut Record,
    tables: &mut LentTables<'_>,
    config: MicroPriceConfig,
    next: TopOfBook,
) -> Result<(), NotDone>
    ensures ends { CallEnds config (memory_with rec.old (tables_of tables.old)) (quote next) (done_number result) (memory_with rec.new (tables_of tables.new)) }
    ensures same_slices { SameSlices tables.old tables.new }
{
    calibrator::observe(rec, tables, config, next)?;
    Ok(())
}

// A restore of another configuration is left out.
fn replay_restore(
    rec: &mut Record,
    tables: &mut LentTables<'_>,
    config: MicroPriceConfig,
    bytes: &[u8],
) -> Result<(), NotDone>
    ensures ends { let m = memory_with rec.old (tables_of tables.old) in
        CallEnds config m (restore bytes.now m) (done_number result) (memory_with rec.new (tables_of tables.new)) }
    ensures same_slices { SameSlices tables.old tables.new }
{
    if is_foreign(config, bytes, tables.view()) {
        return Err(NotDone::OtherConfiguration);
    }
    image::restore(rec, bytes, tables)?;
    Ok(())
}

// Makes a call whose bytes lie in the room.
pub(crate) fn replay_call(
    rec: &mut Record,
    tables: &mut LentTables<'_>,
    config: MicroPriceConfig,
    call: CodedCall,
    room: &mut [u8],
) -> Result<(), NotDone>
    requires { LiesIn (length room.old) call }
    ensures steps { stepped_to (done_number result) (site rec.new (tables_of tables.new) room.new)
        ≡ stepped_by config call (site rec.old (tables_of tables.old) room.old) }
    ensures same_slices { SameSlices tables.old tables.new }
{
    match call {
        CodedCall::Quote(next) => replay_quote(rec, tables, config, next),
        CodedCall::Save(part) => {
            let out = &mut room[part.start..part.end];
            image::save(rec, tables.view(), config, out)?;
            Ok(())
        }
        CodedCall::Restore(part) => {
            let bytes = &room[part.start..part.end];
            replay_restore(rec, tables, config, bytes)
        }
    }
}
