// The evening program's text: its reader, and what its lines are written with. Where a function has a `requires`, it is for the crates above, and each caller
// proves it.
#![tactic(auto)]

ghost use Rattle.std.specs.Prelude.{◌≡◌, ◌+◌, ◌*◌, ◌≤◌, ◌<◌, ◌^◌, [], ◌∷◌, length, IfSome};
ghost use Rattle.program_text.specs.Text.{decimal};
ghost use Rattle.program_text.specs.Written.{hex_digit, hex_digits, hex16, Wrote};
ghost use Rattle.program_text.specs.Reading.{whole_lines, few_states, read_text, ReadBy};
ghost use Rattle.program_text.specs.Inner.{separator, with_digit, digit_step, end_step, step_of, kept, NumbersBy};

// Line 1, and the number of quotes.
#[derive(Clone, Copy)]
pub struct Request {
    pub tick: u64,
    pub buckets: u64,
    pub spread_states: u64,
    pub least: u64,
    pub gap: u64,
    pub start: u64,
    pub end: u64,
    pub quotes: usize,
}

// How far a text is read: the numbers that ended, and the value of the digits after them, if there are any.
#[derive(Clone, Copy)]
pub struct Scan {
    pub count: usize,
    pub digits: Option<u64>,
}

// What follows the number with k numbers before it.
fn separator(k: usize) -> u8
    ensures { result ≡ separator k }
{
    if k < 6 || (k - 6) % 5 != 0 {
        b' '
    } else {
        b'\n'
    }
}

// The value of digits with one more behind them, if it may follow: not behind a first zero, and below 2^64.
fn with_digit(digits: Option<u64>, d: u64) -> Option<u64>
    requires { d ≤ 9 }
    ensures { result ≡ with_digit digits d }
{
    let Some(value) = digits else {
        return Some(d);
    };
    if value == 0 {
        return None;
    }
    value.checked_mul(10)?.checked_add(d)
}

fn add_digit(s: Scan, d: u64) -> Option<Scan>
    requires { d ≤ 9 }
    ensures { result ≡ digit_step s d }
{
    let value = with_digit(s.digits, d)?;
    Some(Scan {
        count: s.count,
        digits: Some(value),
    })
}

fn end_number(s: Scan, b: u8) -> Option<Scan>
    requires { s.count + 1 < 2 ^ 64 }
    ensures { result ≡ end_step s b }
{
    if s.digits.is_none() || b != separator(s.count) {
        return None;
    }
    Some(Scan {
        count: s.count + 1,
        digits: None,
    })
}

// One byte more.
fn take_byte(s: Scan, b: u8) -> Option<Scan>
    requires { s.count + 1 < 2 ^ 64 }
    ensures { result ≡ step_of s b }
{
    match b {
        b'0'..=b'9' => add_digit(s, u64::from(b - b'0')),
        _ => end_number(s, b),
    }
}

// Stores in its place, counted from number `first` on, a number that has ended, if one has.
fn keep(out: &mut [u64], first: usize, s: Scan, t: Scan)
    ensures { out.new ≡ kept out.old first s t }
{
    if let (Some(value), None) = (s.digits, t.digits) {
        if first <= s.count && s.count - first < out.len() {
            out[s.count - first] = value;
        }
    }
}

// Reads all numbers of a text and stores them from number `first` on, as far as there is room. Answers how many there are, if each byte stands where it may.
fn read_numbers(text: &[u8], first: usize, out: &mut [u64]) -> Option<usize>
    ensures { NumbersBy text.now first out.old result out.new }
{
    let mut s = Scan {
        count: 0,
        digits: None,
    };
    for b in text {
        let t = take_byte(s, *b)?;
        keep(out, first, s, t);
        s = t;
    }
    if s.digits.is_some() {
        return None;
    }
    Some(s.count)
}

fn whole_lines(m: usize) -> bool
    ensures { result ≡ whole_lines m }
{
    7 <= m && (m - 7) % 5 == 0 && (m - 7) / 5 <= 1000
}

// Judged on the exact product.
fn few_states(n: u64, s: u64) -> bool
    ensures { result ≡ few_states n s }
{
    n.checked_mul(s).is_some_and(|states| states <= 27)
}

// The request of a text, and the words of its quotes in the recording, as far as it has room; or bad input, and the recording as it was.
pub fn read_text(text: &[u8], recording: &mut [u64]) -> Option<Request>
    ensures read { ReadBy (read_text text.now) recording.old result recording.new }
    ensures few { IfSome result (λ r. (r.quotes ≤ 1000) × (r.buckets * r.spread_states ≤ 27)) }
{
    let mut head = [0u64; 7];
    let count = read_numbers(text, 0, &mut head)?;
    if !whole_lines(count) || !few_states(head[1], head[2]) {
        return None;
    }
    // The same text, which is read as before.
    read_numbers(text, 7, recording);
    Some(Request {
        tick: head[0],
        buckets: head[1],
        spread_states: head[2],
        least: head[3],
        gap: head[4],
        start: head[5],
        end: head[6],
        quotes: (count - 7) / 5,
    })
}

// ---- writing

fn hex_digit(d: u64) -> u8
    requires { d < 16 }
    ensures { result ≡ hex_digit d }
{
    if d < 10 {
        b'0' + d as u8
    } else {
        b'a' + (d - 10) as u8
    }
}

// Lent bytes that are written one after another, and the place of the next. Not by `write!`: it promises the text only where it answers `Ok`, and nothing says
// that it does where there is room. The room is a clause of each function that writes: each write uses some of it, so no field can hold it.
#[derive(Drop)]
pub struct Out<'a> {
    pub bytes: &'a mut [u8],
    pub at: usize,
}

impl Out<'_> {
    fn byte(&mut self, b: u8)
        requires { self.old.at < length self.old.bytes.now }
        ensures { Wrote self.old (b ∷ []) self.new }
    {
        self.bytes[self.at] = b;
        self.at += 1;
    }

    pub fn text(&mut self, text: &[u8])
        requires { self.old.at + length text.now ≤ length self.old.bytes.now }
        ensures { Wrote self.old text.now self.new }
    {
        let end = self.at + text.len();
        self.bytes[self.at..end].copy_from_slice(text);
        self.at = end;
    }

    // In decimal.
    pub fn number(&mut self, n: u64)
        requires { self.old.at + length (decimal n) ≤ length self.old.bytes.now }
        ensures { Wrote self.old (decimal n) self.new }
    {
        if 10 <= n {
            self.number(n / 10);
        }
        self.byte(b'0' + (n % 10) as u8);
    }

    // The last k hexadecimal digits.
    fn digits(&mut self, w: u64, k: usize)
        requires { self.old.at + k ≤ length self.old.bytes.now }
        ensures { Wrote self.old (hex_digits k w) self.new }
    {
        if k != 0 {
            self.digits(w / 16, k - 1);
            self.byte(hex_digit(w % 16));
        }
    }

    // In hexadecimal, sixteen digits.
    pub fn hex(&mut self, w: u64)
        requires { self.old.at + 16 ≤ length self.old.bytes.now }
        ensures { Wrote self.old (hex16 w) self.new }
    {
        self.digits(w, 16);
    }
}
