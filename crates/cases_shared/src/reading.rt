// Standard input, and the words of a case, read from a line of text.
ghost use Rattle.std.specs.Prelude.{◌<◌, ◌≤◌, length};

use config::MicroPriceConfig;
use quotes::TopOfBook;
use std::io::Read;

// Reads until the buffer is full, the input ends or a read fails. Answers how many bytes it put in front of the buffer.
// A `while`: each read may put any number of bytes, and `read_exact` does not say how many came. Beside that of `evening_main`, where a failed read is an
// error.
pub fn read_full<R: Read>(reader: &mut R, buffer: &mut [u8]) -> usize
    ensures { result ≤ length buffer.new }
{
    let mut done: usize = 0;
    while done < buffer.len() {
        match reader.read(&mut buffer[done..]) {
            Ok(0) | Err(_) => return done,
            Ok(n) => done += n,
        }
    }
    done
}

// A word, or 0 past the end.
pub fn word_at(words: &[u64], i: usize) -> u64 {
    words.get(i).copied().unwrap_or(0)
}

// Sets a word or a total, if it is there.
pub fn set_at<T: Copy>(words: &mut [T], i: usize, w: T) {
    if i < words.len() {
        words[i] = w;
    }
}

// The number that the digits among some bytes write. No word of the cases has more than 19. No `parse`: that takes a `&str`.
fn number_of(digits: &[u8]) -> u64 {
    digits
        .iter()
        .filter(|b| b.is_ascii_digit())
        .fold(0, |w, b| {
            w % 1_000_000_000_000_000_000 * 10 + u64::from(*b % b'0')
        })
}

// Reads the words of a line, as far as there is room; the others stay.
pub fn read_line(line: &[u8], words: &mut [u64]) {
    for (word, digits) in words.iter_mut().zip(line.split(|b| *b == b' ')) {
        *word = number_of(digits);
    }
}

// How many parts follow word i; no case has 1,024.
pub fn count_at(words: &[u64], i: usize) -> usize
    ensures { result < 1024 }
{
    (word_at(words, i) % 1024) as usize
}

// The configuration of words 1 to 5.
pub fn config_of(words: &[u64]) -> MicroPriceConfig {
    config::inner::config_of(&[
        word_at(words, 1),
        word_at(words, 2),
        word_at(words, 3),
        word_at(words, 4),
        word_at(words, 5),
    ])
}

// The parts of N words whose number is word `at`, as far as they are there. A case is one line of words, and its parts stand at places that its own
// numbers give: so a place goes with the words.
pub fn parts_at<const N: usize>(words: &[u64], at: usize) -> &[[u64; N]]
    requires { 0 < N }
    ensures { length result.now < 1024 }
{
    match words.get(at..) {
        Some([_, rest @ ..]) => {
            let (parts, _) = rest.as_chunks::<N>();
            &parts[..parts.len().min(count_at(words, at))]
        }
        _ => &[],
    }
}

// The quote of the five words from word `at` on.
pub fn quote_at(words: &[u64], at: usize) -> TopOfBook {
    let rest = words.get(at..).unwrap_or(&[]);
    TopOfBook::from([
        word_at(rest, 0),
        word_at(rest, 1),
        word_at(rest, 2),
        word_at(rest, 3),
        word_at(rest, 4),
    ])
}
