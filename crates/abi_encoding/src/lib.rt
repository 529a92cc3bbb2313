// A configuration and a record as lent words, for the exported operations. Where a function has a `requires`, each caller proves it.
#![tactic(auto)]

ghost use Rattle.std.specs.Prelude.{◌≡◌, [], length};
ghost use Rattle.calibrator.specs.Record.{memory};
ghost use Rattle.abi_encoding.specs.Encoding.{record_length, record_words_of, record_of, is_record, right_words, encoded};

use calibrator::{Counters, Record};
use quotes::TopOfBook;

// What an exported operation answers to words that are no configuration or no record: a number of the header, not of a refusal.
pub const BAD_ENCODING: u64 = 100;

// How many words a record has.
pub const RECORD_WORDS: usize = 10;

// Whether the words are a record's.
pub fn is_record(w: &[u64]) -> bool
    ensures { result ≡ is_record w.now }
{
    if w.len() != RECORD_WORDS {
        return false;
    }
    matches!(*w, [1, ..] | [0, 0, 0, 0, 0, 0, ..])
}

// Whether the words are as many as a configuration's and a record's.
pub fn right_words(config: &[u64], rec: &[u64]) -> bool
    ensures { result ≡ right_words config.now rec.now }
{
    (config.len() == config::inner::CONFIG_WORDS) & (rec.len() == RECORD_WORDS)
}

// Whether the words are a configuration's and a record's.
pub fn is_encoded(config: &[u64], rec: &[u64]) -> bool
    ensures { result ≡ encoded config.now rec.now }
{
    (config.len() == config::inner::CONFIG_WORDS) & is_record(rec)
}

// The record that words hold, whatever they are, each named once. No `From<[u64; 10]>`: the exported functions are lent slices. Apart from a header's record,
// whose words stand among others.
pub fn record_of(w: &[u64]) -> Record
    requires { length w.now ≡ record_length }
    ensures { result ≡ record_of w.now }
{
    let quote = TopOfBook::from([w[1], w[2], w[3], w[4], w[5]]);
    let counters = Counters {
        pairs: w[6],
        skipped_spread_pairs: w[7],
        skipped_gap_pairs: w[8],
        largest_move_half_ticks: w[9],
    };
    Record {
        previous: (w[0] == 1).then_some(quote),
        counters,
    }
}

// Writes the words of a record. Not `&mut [u64; 10]`: by `as_mut_array` each exported function has a second way out with BAD_ENCODING, and a longer proof.
pub fn put_record(w: &mut [u64], rec: Record)
    requires { length w.old ≡ record_length }
    ensures { w.new ≡ record_words_of (memory rec [] [] []) }
{
    let k = rec.counters;
    w[..6].copy_from_slice(&image_layout::previous_words(rec.previous));
    w[6..].copy_from_slice(&[
        k.pairs,
        k.skipped_spread_pairs,
        k.skipped_gap_pairs,
        k.largest_move_half_ticks,
    ]);
}
