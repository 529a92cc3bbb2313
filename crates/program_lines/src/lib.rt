// The lines that the evening program prints (document 01, "Marked and run"). Inner functions: for the crates above. Where one has a `requires`, each caller
// proves it.
#![tactic(auto)]

ghost use Rattle.std.specs.Prelude.{◌≡◌, ◌+◌, ◌*◌, ◌≤◌, ◌<◌, length};
ghost use Rattle.model.specs.Rows.{row_word};
ghost use Rattle.program_lines.specs.Lines.{named, spaced, bits, counter_lines, row_numbers, row_floats, row_line, row_lines, fit_lines};
ghost use Rattle.program_lines.specs.Inner.{WroteIn};

use calibrator::Counters;
use program_text::Out;
use refusals::Refusal;

// A line of a name and a number.
pub fn put_named(out: &mut Out<'_>, word: &[u8], n: u64)
    requires { out.old.at + length word.now + 21 ≤ length out.old.bytes.now }
    ensures { WroteIn (length word.now + 21) out.old (named word.now n) out.new }
{
    out.text(word);
    out.number(n);
    out.text(b"\n");
}

// A number and a space.
fn put_spaced(out: &mut Out<'_>, n: u64)
    requires { out.old.at + 21 ≤ length out.old.bytes.now }
    ensures { WroteIn 21 out.old (spaced n) out.new }
{
    out.number(n);
    out.text(b" ");
}

// Sixteen hexadecimal digits and a space.
fn put_bits(out: &mut Out<'_>, w: u64)
    requires { out.old.at + 17 ≤ length out.old.bytes.now }
    ensures { WroteIn 17 out.old (bits w) out.new }
{
    out.hex(w);
    out.text(b" ");
}

// Word k of row i of a model table. By `get`, and not by chunks of seven: nothing is asked of the table's length.
fn row_word(model: &[u64], i: usize, k: usize) -> u64
    requires { (i < 27) × (k < 7) }
    ensures { result ≡ row_word model.now i k }
{
    model.get(7 * i + k).copied().unwrap_or(0)
}

// The five counters.
pub fn put_counters(out: &mut Out<'_>, k: Counters, invalid: u64)
    requires { out.old.at + 138 ≤ length out.old.bytes.now }
    ensures { WroteIn 138 out.old (counter_lines k.pairs k.skipped_spread_pairs k.skipped_gap_pairs k.largest_move_half_ticks invalid) out.new }
{
    put_named(out, b"pairs ", k.pairs);
    put_named(out, b"spread ", k.skipped_spread_pairs);
    put_named(out, b"gap ", k.skipped_gap_pairs);
    put_named(out, b"largest ", k.largest_move_half_ticks);
    put_named(out, b"invalid ", invalid);
}

// State, bucket, spread and observations.
fn put_row_numbers(out: &mut Out<'_>, model: &[u64], i: usize)
    requires { (i < 27) × (out.old.at + 84 ≤ length out.old.bytes.now) }
    ensures { WroteIn 84 out.old (row_numbers model.now i) out.new }
{
    put_spaced(out, i as u64);
    put_spaced(out, row_word(model, i, 0));
    put_spaced(out, row_word(model, i, 1));
    put_spaced(out, row_word(model, i, 2));
}

// The bits of three floats.
fn put_row_floats(out: &mut Out<'_>, model: &[u64], i: usize)
    requires { (i < 27) × (out.old.at + 51 ≤ length out.old.bytes.now) }
    ensures { WroteIn 51 out.old (row_floats model.now i) out.new }
{
    put_bits(out, row_word(model, i, 3));
    put_bits(out, row_word(model, i, 4));
    put_bits(out, row_word(model, i, 5));
}

// The line of state i.
fn put_row(out: &mut Out<'_>, model: &[u64], i: usize)
    requires { (i < 27) × (out.old.at + 156 ≤ length out.old.bytes.now) }
    ensures { WroteIn 156 out.old (row_line model.now i) out.new }
{
    put_row_numbers(out, model, i);
    put_row_floats(out, model, i);
    put_named(out, b"", row_word(model, i, 6));
}

// The lines of states 0 to n - 1. That n is at most 27, the program's bound, is a clause: a struct of one number would be made anew at each call.
fn put_rows(out: &mut Out<'_>, model: &[u64], n: usize)
    requires { (n ≤ 27) × (out.old.at + 156 * n ≤ length out.old.bytes.now) }
    ensures { WroteIn (156 * n) out.old (row_lines model.now n) out.new }
{
    for i in 0..n {
        put_row(out, model, i);
    }
}

// The rows of a fit, or the number of its refusal.
pub fn put_fit(out: &mut Out<'_>, answer: Result<(), Refusal>, model: &[u64], n: usize)
    requires { (n ≤ 27) × (out.old.at + 4212 ≤ length out.old.bytes.now) }
    ensures { WroteIn 4212 out.old (fit_lines answer model.now n) out.new }
{
    match answer {
        Ok(()) => put_rows(out, model, n),
        Err(refusal) => put_named(out, b"fit ", refusal.number()),
    }
}
