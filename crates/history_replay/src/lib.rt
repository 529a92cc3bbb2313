// The replay of a list of quotes, saves and restores (document 01, "The history").
#![tactic(auto)]

use calibrator::Record;
use config::MicroPriceConfig;
use tally::LentTables;

pub mod inner;

ghost use Rattle.tally.specs.Lent.{tables_of, SameSlices};
ghost use Rattle.history_replay.specs.Replay.{site, Promised, replay as replays};

// A list that is no encoding of as many calls as there are answers, or has bytes past the room.
#[derive(Clone, Copy, Debug, PartialEq, Eq)]
pub struct BadEncoding;

// Runs an encoded list of calls and writes each one's answer. A call is six words: 0 and a quote; 1 (save) or 2 (restore), where its bytes begin in the room,
// how many they are, and three words of any content. A restore of another configuration is left out: it is answered 101 and changes nothing. A bad encoding
// changes nothing.
pub fn replay(
    rec: &mut Record,
    tables: &mut LentTables<'_>,
    config: MicroPriceConfig,
    calls: &[u64],
    room: &mut [u8],
    answers: &mut [u64],
) -> Result<(), BadEncoding>
    ensures runs { Promised config (site rec.old (tables_of tables.old) room.old) calls.now answers.old
        (replays result answers.new (site rec.new (tables_of tables.new) room.new)) }
    ensures same_slices { SameSlices tables.old tables.new }
{
    inner::check_encoding(calls, room.len(), answers.len())?;
    let (calls, _) = calls.as_chunks::<6>();
    // The calls by index: of what a `zip` over `iter_mut` writes, no clause of the library says anything. They are judged, so no `?` here answers.
    for (k, answer) in answers.iter_mut().enumerate() {
        let call = inner::call_of(&calls[k], room.len())?;
        let done = inner::replay_call(rec, tables, config, call, room);
        *answer = inner::done_number(done);
    }
    Ok(())
}
