// Runs texts through the evening and prints what it prints for each. Standard input is tests/comparison/evening_cases.txt, whose form
// tests/comparison/README.md describes; tests/comparison/make_evening_cases.sh says how the expected output is made.
#![tactic(auto)]

ghost use Rattle.std.specs.Prelude.{◌≤◌};

// A byte more than the longest text that is no bad input has, as `evening_main` has it: each program has its own room.
const TEXT_BYTES: usize = 105129;

// The text of a case, as far as its lines are read. Bytes with their length: no heap, so no `Vec`.
#[derive(Drop)]
struct Text {
    bytes: [u8; TEXT_BYTES],
    len: usize,
    ghost within: { len ≤ 105129 },
}

impl Text {
    // Adds what the bytes of a case stand for, as far as there is room.
    fn add(&mut self, part: &[u8]) {
        for b in part {
            if self.len == TEXT_BYTES {
                return;
            }
            self.bytes[self.len] = meant(*b);
            self.len += 1;
        }
    }
}

// What a byte of a case stands for: | a newline, ^ a carriage return, ~ a tab.
fn meant(b: u8) -> u8 {
    match b {
        b'|' => b'\n',
        b'^' => b'\r',
        b'~' => b'\t',
        _ => b,
    }
}

// The number at the beginning of a line, up to its first space. No case has more than six digits. No `parse`: that takes a `&str`.
// Apart from `number_of` of `cases_shared`, of 19 digits: this number is how often a text is repeated.
fn count_of(line: &[u8]) -> u64 {
    line.iter()
        .take_while(|b| **b != b' ')
        .fold(0, |value, b| value % 100_000 * 10 + u64::from(*b % 48))
}

// What stands behind the first space of a line.
fn after_space(line: &[u8]) -> &[u8] {
    match line.iter().position(|b| *b == b' ') {
        Some(k) => &line[k + 1..],
        None => &[],
    }
}

// A line of a case: its name, which begins a new text; what is to be added to the text; or the end, where the text is run.
fn run_line(rt: &impl Print, line: &[u8], text: &mut Text) {
    match line.first() {
        None => {}
        Some(b'c') => {
            let _ = rt.write_all(line);
            let _ = rt.write_all(b"\n");
            text.len = 0;
        }
        Some(b'e') => show(rt, &text.bytes[..text.len]),
        Some(_) => {
            let part = after_space(line);
            for _ in 0..count_of(line) {
                // Nothing more is added.
                if part.is_empty() || text.len == TEXT_BYTES {
                    break;
                }
                text.add(part);
            }
        }
    }
}

// Beside `answer` of `evening_main`, which says on standard error that a write failed.
fn show(rt: &impl Print, text: &[u8]) {
    let mut out = [0; program_report::MOST_BYTES];
    let n = program_report::evening_text(text, &mut out);
    let _ = rt.write_all(&out[..n]);
}

fn main(rt: HostRuntime) {
    let mut input = [0; 16384];
    let got = cases_shared::reading::read_full(&mut rt.stdin(), &mut input);
    let mut text = Text {
        bytes: [0; TEXT_BYTES],
        len: 0,
    };
    for line in input[..got].split(|b| *b == b'\n') {
        run_line(&rt, line, &mut text);
    }
}
