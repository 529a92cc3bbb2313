// Document 01's configuration, new and quote for callers in C and Rust: numbers and lent slices alone. include/micro_price.h says how they are called.
// The words of a configuration and of a record are those of specs/Encoding.antt of `abi_encoding`; others are answered with BAD_ENCODING before all else, but
// new takes any words of the right number for the record that it overwrites. Every other answer is 0 or the number of a refusal.
#![tactic(auto)]

ghost use Rattle.std.specs.Prelude.{◌≡◌, length};
ghost use Rattle.tally.specs.Entries.{Tables};
ghost use Rattle.calibrator.specs.Record.{left_by};
ghost use Rattle.calibrator.specs.declared.Record.{Record};
ghost use Rattle.abi_encoding.specs.Encoding.{record_length, lent, top_of_book};
ghost use Rattle.abi_counting.specs.Counting.{validate_words, of_outcome, new_words, observe_words};

use abi_encoding::BAD_ENCODING;
use calibrator::Record;
use quotes::TopOfBook;
use refusals::Refusal;
use tally::LentTables;

// Whether a configuration is valid: 0 or 1.
#[unsafe(no_mangle)]
pub extern "C" fn micro_price_validate(config: &[u64]) -> u64
    ensures { result ≡ validate_words config.now }
{
    if config.len() != config::inner::CONFIG_WORDS {
        return BAD_ENCODING;
    }
    refusals::check_number(config::inner::config_of(config).validate())
}

// Writes the record that an operation answers; a refusal writes nothing. Its caller has as many words.
fn put_outcome(rec: &mut [u64], outcome: Result<Record, Refusal>) -> u64
    requires { length rec.old ≡ record_length }
    ensures { (before : Record) (t : Tables) → lent result rec.new t.stay t.moved t.totals ≡ of_outcome rec.old (left_by before outcome t) }
{
    match outcome {
        Ok(next) => {
            abi_encoding::put_record(rec, next);
            0
        }
        Err(refusal) => refusal.number(),
    }
}

// Empties the record and zeroes the three tables. A refusal writes nothing.
#[unsafe(no_mangle)]
pub extern "C" fn micro_price_new(
    config: &[u64],
    rec: &mut [u64],
    stay: &mut [u64],
    moved: &mut [u64],
    move_half_ticks: &mut [i64],
) -> u64
    ensures { lent result rec.new stay.new moved.new move_half_ticks.new ≡ new_words config.now rec.old stay.old moved.old move_half_ticks.old }
{
    if !abi_encoding::right_words(config, rec) {
        return BAD_ENCODING;
    }
    let mut tables = LentTables {
        stay,
        moved,
        move_half_ticks,
    };
    let made = calibrator::inner::new(&mut tables, config::inner::config_of(config));
    put_outcome(rec, made)
}

// Adds the next quote. A refusal writes nothing.
#[unsafe(no_mangle)]
pub extern "C" fn micro_price_observe(
    config: &[u64],
    rec: &mut [u64],
    stay: &mut [u64],
    moved: &mut [u64],
    move_half_ticks: &mut [i64],
    timestamp_ms: u64,
    bid: u64,
    ask: u64,
    bid_size: u64,
    ask_size: u64,
) -> u64
    ensures { lent result rec.new stay.new moved.new move_half_ticks.new
        ≡ observe_words config.now rec.old stay.old moved.old move_half_ticks.old (top_of_book timestamp_ms bid ask bid_size ask_size) }
{
    if !abi_encoding::is_encoded(config, rec) {
        return BAD_ENCODING;
    }
    let quote = TopOfBook {
        timestamp_ms,
        bid,
        ask,
        bid_size,
        ask_size,
    };
    let before = abi_encoding::record_of(rec);
    let mut tables = LentTables {
        stay,
        moved,
        move_half_ticks,
    };
    let counted = calibrator::inner::observe(
        before,
        &mut tables,
        config::inner::config_of(config),
        quote,
    );
    put_outcome(rec, counted)
}
