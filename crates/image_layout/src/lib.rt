// The layout of an image (document 01, "The image"): its header, written and read. Inner functions: for the crates above, not for users. Where one has a
// `requires`, each caller proves it.
#![tactic(auto)]

ghost use Rattle.std.specs.Prelude.{◌≡◌, [], ◌<◌, ◌≤◌, length, MatchOption};
ghost use Rattle.config.specs.Inner.{Valid};
ghost use Rattle.tally.specs.Entries.{tables};
ghost use Rattle.calibrator.specs.Record.{counts_of};
ghost use Rattle.image_layout.specs.Layout.{oldest, newest, header_length, cells, image_length, previous_words, header, form_in, config_in, record_in, header_in, laid_out};

use calibrator::{Counters, Record};
use config::MicroPriceConfig;
use quotes::TopOfBook;

// The words of the oldest header.
const OLDEST: usize = 20;

// The bytes that every header has.
pub const LEAST: usize = 8 * OLDEST;

// The words of the header that save writes, its form, and its length in bytes.
pub const FORM: usize = OLDEST;

pub const HEADER: usize = 8 * FORM;

// The cells of a table.
pub fn cell_count(config: MicroPriceConfig) -> usize
    requires { Valid config }
    ensures { (result ≡ cells config) × (result ≤ 65536) }
{
    let n = config::inner::state_count(config);
    n * n
}

pub fn previous_words(previous: Option<TopOfBook>) -> [u64; 6]
    ensures { result ≡ previous_words previous }
{
    match previous {
        None => [0; 6],
        Some(q) => [1, q.timestamp_ms, q.bid, q.ask, q.bid_size, q.ask_size],
    }
}

pub fn header_words(config: MicroPriceConfig, rec: Record) -> [u64; FORM]
    requires { Valid config }
    ensures { result ≡ header newest config rec.previous (counts_of rec.counters (tables [] [] [])) }
{
    let n = config::inner::state_count(config) as u64;
    let cells = cell_count(config) as u64;
    let start = HEADER as u64;
    let q = previous_words(rec.previous);
    let k = rec.counters;
    [
        n,
        config.imbalance_buckets,
        config.spread_states,
        config.tick_size,
        config.min_state_observations,
        config.max_quote_gap_ms,
        start,
        start + 8 * cells,
        start + 16 * cells,
        q[0],
        q[1],
        q[2],
        q[3],
        q[4],
        q[5],
        k.pairs,
        k.skipped_spread_pairs,
        k.skipped_gap_pairs,
        k.largest_move_half_ticks,
        start + 16 * cells + 8 * n,
    ]
}

pub fn image_length(config: MicroPriceConfig) -> usize
    requires { Valid config }
    ensures { result ≡ image_length newest config }
{
    HEADER + 16 * cell_count(config) + 8 * config::inner::state_count(config)
}

// A header and its words, of bytes that are at least as many as every header has.
#[derive(Clone, Copy)]
pub struct Header<'a> {
    pub bytes: &'a [u8],
    words: [u64; OLDEST],
    ghost long: { header_length oldest ≤ length bytes.now },
    ghost read: { words ≡ header_in oldest bytes.now },
}

impl<'a> Header<'a> {
    pub fn of(bytes: &'a [u8]) -> Option<Header<'a>>
        ensures { MatchOption result (length bytes.now < header_length oldest) (λ header. header.bytes.now ≡ bytes.now) }
    {
        if bytes.len() < LEAST {
            return None;
        }
        let mut words = [0; OLDEST];
        image_words::get_table(bytes, 0, &mut words);
        Some(Header { bytes, words })
    }

    pub fn config(&self) -> MicroPriceConfig
        ensures { result ≡ config_in (form_in self.now.bytes.now) self.now.bytes.now }
    {
        let [_, buckets, spreads, tick, least, gap, ..] = self.words;
        config::inner::config_of(&[tick, buckets, spreads, least, gap])
    }

    pub fn record(&self) -> Record
        ensures { result ≡ record_in (form_in self.now.bytes.now) self.now.bytes.now }
    {
        let w = self.words;
        let quote = TopOfBook::from([w[10], w[11], w[12], w[13], w[14]]);
        Record {
            previous: (w[9] == 1).then_some(quote),
            counters: Counters {
                pairs: w[15],
                skipped_spread_pairs: w[16],
                skipped_gap_pairs: w[17],
                largest_move_half_ticks: w[18],
            },
        }
    }

    // Whether the words are those of the header that save writes of this configuration and record, and the bytes as many as their image has.
    pub fn is_laid_out(&self) -> bool
        requires { let b = self.now.bytes.now in Valid (config_in (form_in b) b) }
        ensures { let b = self.now.bytes.now in result ≡ laid_out (form_in b) b }
    {
        let config = self.config();
        let words = header_words(config, self.record());
        (self.words == words) & (self.bytes.len() == image_length(config))
    }
}
