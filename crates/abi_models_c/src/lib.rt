// The functions of `abi_models` for callers in C, with its clauses: a static library exports the functions of its own crate alone.
// include/micro_price.h says how they are called.
#![tactic(auto)]

ghost use Rattle.std.specs.Prelude.{◌≡◌};
ghost use Rattle.abi_encoding.specs.Encoding.{top_of_book};
ghost use Rattle.abi_models.specs.Models.{lent_row, check_model_words, lent_signal, signal_words};

// Refuses a model table that is not one of the configuration; at 13, row is the first bad row.
#[unsafe(no_mangle)]
pub extern "C" fn micro_price_check_model(config: &[u64], model: &[u64], row: &mut u64) -> u64
    ensures { lent_row result row.new ≡ check_model_words config.now model.now row.old }
{
    abi_models::micro_price_check_model(config, model, row)
}

// The signal of a quote; at 13, row is the quote's state.
#[unsafe(no_mangle)]
pub extern "C" fn micro_price_signal(
    config: &[u64],
    model: &[u64],
    timestamp_ms: u64,
    bid: u64,
    ask: u64,
    bid_size: u64,
    ask_size: u64,
    out: &mut [u64],
    row: &mut u64,
) -> u64
    ensures { lent_signal result out.new row.new ≡ signal_words config.now model.now (top_of_book timestamp_ms bid ask bid_size ask_size) out.old row.old }
{
    abi_models::micro_price_signal(
        config,
        model,
        timestamp_ms,
        bid,
        ask,
        bid_size,
        ask_size,
        out,
        row,
    )
}
