// The functions of `abi_counting` for callers in C, with its clauses: a static library exports the functions of its own crate alone.
// include/micro_price.h says how they are called.
#![tactic(auto)]

ghost use Rattle.std.specs.Prelude.{◌≡◌};
ghost use Rattle.abi_encoding.specs.Encoding.{lent, top_of_book};
ghost use Rattle.abi_counting.specs.Counting.{validate_words, new_words, observe_words};

// Whether a configuration is valid: 0 or 1.
#[unsafe(no_mangle)]
pub extern "C" fn micro_price_validate(config: &[u64]) -> u64
    ensures { result ≡ validate_words config.now }
{
    abi_counting::micro_price_validate(config)
}

// Empties the record and zeroes the three tables. A refusal writes nothing.
#[unsafe(no_mangle)]
pub extern "C" fn micro_price_new(
    config: &[u64],
    rec: &mut [u64],
    stay: &mut [u64],
    moved: &mut [u64],
    move_half_ticks: &mut [i64],
) -> u64
    ensures { lent result rec.new stay.new moved.new move_half_ticks.new ≡ new_words config.now rec.old stay.old moved.old move_half_ticks.old }
{
    abi_counting::micro_price_new(config, rec, stay, moved, move_half_ticks)
}

// Adds the next quote. A refusal writes nothing.
#[unsafe(no_mangle)]
pub extern "C" fn micro_price_observe(
    config: &[u64],
    rec: &mut [u64],
    stay: &mut [u64],
    moved: &mut [u64],
    move_half_ticks: &mut [i64],
    timestamp_ms: u64,
    bid: u64,
    ask: u64,
    bid_size: u64,
    ask_size: u64,
) -> u64
    ensures { lent result rec.new stay.new moved.new move_half_ticks.new
        ≡ observe_words config.now rec.old stay.old moved.old move_half_ticks.old (top_of_book timestamp_ms bid ask bid_size ask_size) }
{
    abi_counting::micro_price_observe(
        config,
        rec,
        stay,
        moved,
        move_half_ticks,
        timestamp_ms,
        bid,
        ask,
        bid_size,
        ask_size,
    )
}
