// Inner functions: for the crates above, not for users. `observe_recording` asks nothing; where another has a `requires`, each caller proves it.
ghost use Rattle.std.specs.Prelude.{◌≡◌, true, Err, ◌*◌, ◌/◌, ◌≤◌, length};
ghost use Rattle.basics.specs.Lists.{count, bit};
ghost use Rattle.tally.specs.Lent.{tables_of, SameSlices};
ghost use Rattle.calibrator.specs.Record.{memory_with};
ghost use Rattle.recording.specs.Recording.{quotes_of, sorted};
ghost use Rattle.recording.specs.Window.{before, PartIn};
ghost use Rattle.recording.specs.Observe.{is_invalid, recorded_as};
ghost use Rattle.recording.specs.Inner.{recorded_of};

use super::{Ends, Recorded};
use calibrator::Record;
use config::MicroPriceConfig;
use quotes::TopOfBook;
use refusals::Refusal;
use tally::LentTables;

// ---- the recording

pub fn is_sorted(recording: &[u64]) -> bool
    ensures { result ≡ sorted (quotes_of recording.now) }
{
    let (quotes, _) = recording.as_chunks::<5>();
    quotes.is_sorted_by_key(|words| words[0])
}

// ---- the window

// How many quotes of a sorted recording are before a time. The halving needs the order, which `window_of` has judged.
pub fn quotes_before(recording: &[u64], time: u64) -> usize
    requires { sorted (quotes_of recording.now) ≡ true }
    ensures { result ≡ count (before time) (quotes_of recording.now) }
{
    let (quotes, _) = recording.as_chunks::<5>();
    quotes.partition_point(|words| words[0] < time)
}

// The part of a recording from quote `first` up to, not including, quote `past`.
pub fn part_of(recording: &[u64], ends: Ends) -> &[u64]
    requires { (ends.first ≤ ends.past) × (ends.past ≤ length recording.now / 5) }
    ensures { PartIn ends recording.entry result }
{
    let from = 5 * ends.first;
    let to = 5 * ends.past;
    &recording[from..to]
}

// ---- counting

// Whether a refusal is 3 or 4. A function of its own: with `Err(BadQuote | OffTick)` as a pattern in the loop the proof did not close.
fn is_invalid(refusal: Refusal) -> bool
    ensures { result ≡ is_invalid (Err refusal) }
{
    matches!(refusal, Refusal::BadQuote | Refusal::OffTick)
}

// What a refused quote adds to the number of invalid quotes.
fn invalid_in(refusal: Refusal) -> u64
    ensures counted { result ≡ bit (is_invalid (Err refusal)) }
    ensures one { result ≤ 1 }
{
    u64::from(matches!(refusal, Refusal::BadQuote | Refusal::OffTick))
}

// Gives each quote of a recording to the calibrator. Answers 3 and 4 are passed over and counted; any other refusal ends it.
pub fn observe_recording(
    rec: &mut Record,
    tables: &mut LentTables<'_>,
    config: MicroPriceConfig,
    recording: &[u64],
) -> Recorded
    ensures left { recorded_as result.answer result.invalid (memory_with rec.new (tables_of tables.new))
        ≡ recorded_of config recording.now (memory_with rec.old (tables_of tables.old)) }
    ensures same_slices { SameSlices tables.old tables.new }
{
    let (quotes, rest) = recording.as_chunks::<5>();
    let mut invalid = 0;
    if !rest.is_empty() {
        let answer = Err(Refusal::SliceLength);
        return Recorded { answer, invalid };
    }
    for words in quotes {
        let answer = calibrator::observe(rec, tables, config, TopOfBook::from(*words));
        if let Err(refusal) = answer {
            if !is_invalid(refusal) {
                return Recorded { answer, invalid };
            }
            invalid += invalid_in(refusal);
        }
    }
    let answer = Ok(());
    Recorded { answer, invalid }
}
