// Document 01's model check and signal for callers in C and Rust: numbers and lent slices alone. include/micro_price.h says how they are called.
// `put_signal`, which has a `requires`, is inner; its caller proves it.
#![tactic(auto)]

ghost use Rattle.std.specs.Prelude.{◌≡◌, length};
ghost use Rattle.refusals.specs.Refusals.{number_of, row_or};
ghost use Rattle.abi_encoding.specs.Encoding.{top_of_book};
ghost use Rattle.abi_models.specs.Models.{lent_row, check_model_words, lent_signal, signal_length, sent_words, signal_words};

use abi_encoding::BAD_ENCODING;
use model_signals::MicroPriceSignal;
use quotes::TopOfBook;
use refusals::Refusal;

// How many words a signal has.
pub const SIGNAL_WORDS: usize = 4;

// A refusal's number; at 13 the row that it names is written.
fn put_row(refusal: Refusal, row: &mut u64) -> u64
    ensures { (result ≡ number_of refusal) × (row.new ≡ row_or refusal row.old) }
{
    *row = refusal.row_or(*row);
    refusal.number()
}

// Refuses a model table that is not one of the configuration; at 13, row is the first bad row.
#[unsafe(no_mangle)]
pub extern "C" fn micro_price_check_model(config: &[u64], model: &[u64], row: &mut u64) -> u64
    ensures { lent_row result row.new ≡ check_model_words config.now model.now row.old }
{
    if config.len() != config::inner::CONFIG_WORDS {
        return BAD_ENCODING;
    }
    match model_check::check_model(config::inner::config_of(config), model) {
        Ok(()) => 0,
        Err(refusal) => put_row(refusal, row),
    }
}

// Time, bid + ask, the bits of the adjustment, source. No `From`: the signal is of another crate.
fn put_signal(out: &mut [u64], s: MicroPriceSignal)
    requires { length out.old ≡ signal_length }
    ensures { out.new ≡ sent_words s }
{
    let words = [
        s.timestamp_ms,
        s.mid_sum,
        floats::to_bits(s.adjustment),
        u64::from(s.source),
    ];
    out.copy_from_slice(&words);
}

// The signal of a quote; at 13, row is the quote's state.
#[unsafe(no_mangle)]
pub extern "C" fn micro_price_signal(
    config: &[u64],
    model: &[u64],
    timestamp_ms: u64,
    bid: u64,
    ask: u64,
    bid_size: u64,
    ask_size: u64,
    out: &mut [u64],
    row: &mut u64,
) -> u64
    ensures { lent_signal result out.new row.new ≡ signal_words config.now model.now (top_of_book timestamp_ms bid ask bid_size ask_size) out.old row.old }
{
    if config.len() != config::inner::CONFIG_WORDS {
        return BAD_ENCODING;
    }
    if out.len() != SIGNAL_WORDS {
        return BAD_ENCODING;
    }
    let quote = TopOfBook {
        timestamp_ms,
        bid,
        ask,
        bid_size,
        ask_size,
    };
    match model_signals::signal(config::inner::config_of(config), model, quote) {
        Ok(signal) => {
            put_signal(out, signal);
            0
        }
        Err(refusal) => put_row(refusal, row),
    }
}
