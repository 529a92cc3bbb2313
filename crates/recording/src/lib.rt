// Recordings: the window, and a recording counted into a calibrator (document 01, "The window", "An evening's calibration"). A recording is lent as a flat
// slice of five words a quote: time, bid, ask, bid size, ask size.
#![tactic(auto)]

use refusals::Refusal;

pub mod inner;

ghost use Rattle.std.specs.Prelude.{◌≡◌};
ghost use Rattle.recording.specs.Window.{window_of, part_ends, PartIn};

// A part of a recording: its first quote, and the one past its last. No `Range<usize>`: that is not `Copy`.
#[derive(Clone, Copy, Default)]
pub struct Ends {
    pub first: usize,
    pub past: usize,
}

// The answer of a count, or of the fit after it, and the number of invalid quotes. Every answer has that number: so it is no value of an `Ok`.
#[derive(Clone, Copy)]
pub struct Recorded {
    pub answer: Result<(), Refusal>,
    pub invalid: u64,
}

// The part of a recording with start ≤ time < end. They are two numbers, as document 01's operation takes them and the C interface lends them.
pub fn window_of(recording: &[u64], start: u64, end: u64) -> Result<Ends, Refusal>
    ensures { result ≡ window_of recording.now start end }
{
    if recording.len() % 5 != 0 {
        return Err(Refusal::SliceLength);
    }
    if !inner::is_sorted(recording) {
        return Err(Refusal::RecordingUnsorted);
    }
    let first = inner::quotes_before(recording, start);
    let past = inner::quotes_before(recording, end);
    if past < first {
        return Err(Refusal::WindowBackward);
    }
    Ok(Ends { first, past })
}

// That part itself, empty exactly if `window_of` refuses or no quote is inside. It cannot fail, as document 01 has it; `window_of` says which.
pub fn quotes_in(recording: &[u64], start: u64, end: u64) -> &[u64]
    ensures { PartIn (part_ends (window_of recording.now start end)) recording.entry result }
{
    let ends = window_of(recording, start, end).unwrap_or_default();
    inner::part_of(recording, ends)
}
