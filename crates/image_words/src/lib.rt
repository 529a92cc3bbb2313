// Words of 64 bits as little-endian bytes, eight to a word, and tables of them. Inner functions: for the crates above, not for users. Where one has a
// `requires`, each caller proves it.
#![tactic(auto)]

ghost use Rattle.std.specs.Prelude.{◌≡◌, ℕ, ◌+◌, ◌*◌, ◌≤◌, ◌<◌, ◌^◌, length, drop, map, refl};
ghost use Rattle.std.proofs.lemmas.List.Edits.{sets};
ghost use Rattle.std.specs.Int.{w64};
ghost use Rattle.std.proofs.lemmas.Int.{of_z-to_z};
ghost use Rattle.image_words.specs.Words.{digits, bytes_of, words_of, word_at, twos, untwos};

// A number that is written as one word.
pub trait Word: Copy {
    ghost word: { Self → ℕ };

    ghost number: { ℕ → Self };

    fn to_word(self) -> u64
        ensures { result ≡ word self };

    fn from_word(w: u64) -> Self
        ensures { result ≡ number w };

    // A word that is read and written again is the same word.
    ghost back: { (w : ℕ) → w < 2 ^ 64 → word (number w) ≡ w };
}

impl Word for u64 {
    ghost word = { λ w. w };

    ghost number = { λ w. w };

    ghost back = { λ w h. refl };

    fn to_word(self) -> u64 {
        self
    }

    fn from_word(w: u64) -> u64 {
        w
    }
}

// Of either sign, by two's complement.
impl Word for i64 {
    ghost word = { twos };

    ghost number = { untwos };

    ghost back = { of_z-to_z w64 };

    fn to_word(self) -> u64 {
        self.cast_unsigned()
    }

    fn from_word(w: u64) -> i64 {
        w.cast_signed()
    }
}

// A place stands beside the slice: the image is one lent slice (no heap), and a contract says what the whole is after; of `&mut out[at..]` it would say a part.
pub fn put_word(out: &mut [u8], at: usize, w: u64)
    requires { at + 8 ≤ length out.old }
    ensures { out.new ≡ sets out.old at (digits 8 w) }
{
    out[at..at + 8].copy_from_slice(&w.to_le_bytes());
}

pub fn get_word(bytes: &[u8], at: usize) -> u64
    requires { at + 8 ≤ length bytes.now }
    ensures { result ≡ word_at bytes.now at }
{
    u64::from_le_bytes(*bytes[at..at + 8].first_chunk().unwrap())
}

// A whole table, from an offset on.
pub fn put_table<T: Word>(out: &mut [u8], at: usize, t: &[T])
    requires { at + 8 * length t.now ≤ length out.old }
    ensures { out.new ≡ sets out.old at (bytes_of (map T.word t.now)) }
{
    for (i, x) in t.iter().enumerate() {
        put_word(out, at + 8 * i, x.to_word());
    }
}

pub fn get_table<T: Word>(bytes: &[u8], at: usize, t: &mut [T])
    requires { at + 8 * length t.old ≤ length bytes.now }
    ensures { t.new ≡ map T.number (words_of (length t.old) (drop at bytes.now)) }
{
    for (i, x) in t.iter_mut().enumerate() {
        *x = T::from_word(get_word(bytes, at + 8 * i));
    }
}
