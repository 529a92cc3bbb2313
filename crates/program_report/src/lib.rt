// What the evening program prints (document 01, "Marked and run"), as a function from the bytes of its input to the bytes of its output. Where a function has a
// `requires`, each caller proves it.
#![tactic(auto)]

ghost use Rattle.std.specs.Prelude.{◌≡◌, ◌+◌, ◌*◌, ◌≤◌, length};
ghost use Rattle.config.specs.Configuration.{states};
ghost use Rattle.tally.specs.Lent.{tables_of};
ghost use Rattle.program_text.specs.Reading.{asked};
ghost use Rattle.program_lines.specs.Lines.{counter_lines, PutIn};
ghost use Rattle.program_lines.specs.Inner.{WroteIn};
ghost use Rattle.program_report.specs.Printed.{outcome_lines, request_config, printed, evening_text, most_bytes, text_for};
ghost use Rattle.program_report.specs.Inner.{Zeros};

use calibrator::{Counters, Record};
use config::MicroPriceConfig;
use program_text::{Out, Request};
use recording::Recorded;
use refusals::Refusal;
use tally::LentTables;

// The most that is printed: five counters, and 27 rows of at most 156 bytes.
pub const MOST_BYTES: usize = 4350;

// The lines of an evening's answer, its counters and its model table.
fn put_outcome(
    out: &mut Out<'_>,
    answer: Result<Recorded, Refusal>,
    k: Counters,
    model: &[u64],
    n: usize,
)
    requires { (n ≤ 27) × (out.old.at + most_bytes ≤ length out.old.bytes.now) }
    ensures { WroteIn most_bytes out.old (outcome_lines n answer (counter_lines k.pairs k.skipped_spread_pairs k.skipped_gap_pairs k.largest_move_half_ticks)
        model.now) out.new }
{
    match answer {
        Err(refusal) => program_lines::put_named(out, b"refused ", refusal.number()),
        Ok(d) => {
            program_lines::put_counters(out, k, d.invalid);
            program_lines::put_fit(out, d.answer, model, n);
        }
    }
}

// The configuration of line 1.
fn request_config(r: Request) -> MicroPriceConfig
    ensures { result ≡ request_config r }
{
    let words = [r.tick, r.buckets, r.spread_states, r.least, r.gap];
    config::inner::config_of(&words)
}

// The evening of a request, in memory of zeros, and its lines.
fn put_evening(
    out: &mut Out<'_>,
    r: Request,
    n: usize,
    quotes: &[u64],
    tables: &mut LentTables<'_>,
    scratch: &mut [f64],
    model: &mut [u64],
)
    requires { (n ≡ states (request_config r)) × (n ≤ 27) × (out.old.at + most_bytes ≤ length out.old.bytes.now)
        × Zeros n (tables_of tables.old) scratch.old model.old }
    ensures { WroteIn most_bytes out.old (printed (asked r quotes.now)) out.new }
{
    let mut rec = Record::default();
    let answer = evening::calibrate_micro_price(
        &mut rec,
        tables,
        request_config(r),
        quotes,
        r.start,
        r.end,
        scratch,
        model,
    );
    put_outcome(out, answer, rec.counters, model, n);
}

// Document 01's N. Not `state_count`: that asks for a valid configuration, and a request's may be refused. That there are at most 27 is
// a clause: a request may hold any words, and `read_text` says it of what it answers.
fn states_of(r: Request) -> usize
    requires { r.buckets * r.spread_states ≤ 27 }
    ensures { result ≡ states (request_config r) }
{
    (r.buckets * r.spread_states) as usize
}

// The lines of the evening of a request.
fn put_request(out: &mut Out<'_>, r: Request, quotes: &[u64])
    requires { (r.buckets * r.spread_states ≤ 27) × (out.old.at + most_bytes ≤ length out.old.bytes.now) }
    ensures { WroteIn most_bytes out.old (printed (asked r quotes.now)) out.new }
{
    let mut stay = [0u64; 729];
    let mut moved = [0u64; 729];
    let mut move_half_ticks = [0i64; 27];
    let mut scratch = [0.0f64; 1728];
    let mut model = [0u64; 189];
    let n = states_of(r);
    let cells = n * n;
    let floats = n * (2 * n + 10);
    let mut tables = LentTables {
        stay: &mut stay[..cells],
        moved: &mut moved[..cells],
        move_half_ticks: &mut move_half_ticks[..n],
    };
    put_evening(
        out,
        r,
        n,
        quotes,
        &mut tables,
        &mut scratch[..floats],
        &mut model[..7 * n],
    );
}

// The lines of a text, with room for its quotes.
fn put_text(input: &[u8], out: &mut Out<'_>, recording: &mut [u64])
    requires { (out.old.at + most_bytes ≤ length out.old.bytes.now) × (5000 ≤ length recording.old) }
    ensures { WroteIn most_bytes out.old (evening_text input.now) out.new }
{
    match program_text::read_text(input, recording) {
        None => out.text(b"bad input\n"),
        Some(r) => put_request(out, r, &recording[..5 * r.quotes]),
    }
}

// What the evening program prints for an input, from the front of `out` on, and how many bytes that is. An `out` of fewer than MOST_BYTES bytes stays as it is,
// and the answer is 0.
pub fn evening_text(input: &[u8], out: &mut [u8]) -> usize
    ensures { PutIn (length out.old) out.old 0 (text_for (length out.old) input.now) result out.new }
{
    if out.len() < MOST_BYTES {
        return 0;
    }
    let mut recording = [0u64; 5000];
    let mut lines = Out { bytes: out, at: 0 };
    put_text(input, &mut lines, &mut recording);
    lines.at
}
