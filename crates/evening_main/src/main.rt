// The evening program (document 01, "Marked and run"): what standard input holds goes to `program_report::evening_text`, and what that answers to standard
// output. Where a read or a write fails, a line on standard error says so; after a failed read nothing is written to standard output.
#![tactic(auto)]

ghost use Rattle.std.specs.Prelude.{length};
ghost use Rattle.evening_main.specs.Inner.{InputWithin, ReadAll};

use std::io;
use std::io::Read;

// Room for a byte more than the longest text that is no bad input has; a longer input is cut to that, and is bad input either way.
const INPUT_BYTES: usize = 105129;

// Reads until the input ends, the buffer is full or a read fails, and answers how many bytes it read.
// A `while`: each read may put any number of bytes, and `read_exact` does not say how many came.
fn read_input<R: Read>(reader: &mut R, buffer: &mut [u8]) -> io::Result<usize>
    ensures within { InputWithin (length buffer.old) result }
    ensures bytes { ReadAll (R.remaining reader.old) (R.remaining reader.new) buffer.new result }
{
    let mut at: usize = 0;
    while at < buffer.len() {
        let n = reader.read(&mut buffer[at..])?;
        if n == 0 {
            return Ok(at);
        }
        at += n;
    }
    Ok(at)
}

// Prints what the evening program prints for an input.
fn answer(rt: &(impl Print + Eprint), input: &[u8]) {
    let mut out = [0u8; program_report::MOST_BYTES];
    let n = program_report::evening_text(input, &mut out);
    if rt.write_all(&out[..n]).is_err() {
        let _ = rt.eprintln("evening_main: cannot write standard output");
    }
}

fn main(rt: HostRuntime) {
    let mut buffer = [0u8; INPUT_BYTES];
    match read_input(&mut rt.stdin(), &mut buffer) {
        Ok(n) => answer(&rt, &buffer[..n]),
        Err(_) => {
            let _ = rt.eprintln("evening_main: cannot read standard input");
        }
    }
}
