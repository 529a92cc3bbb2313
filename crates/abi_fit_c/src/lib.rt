// The functions of `abi_fit` for callers in C, with its clauses: a static library exports the functions of its own crate alone.
// include/micro_price.h says how they are called.
#![tactic(auto)]

ghost use Rattle.std.specs.Prelude.{◌≡◌};
ghost use Rattle.abi_fit.specs.FitWindow.{lent_fit, fit_with_words, fit_words, lent_ends, window_words};

// Fits the model with at most so many rounds of the series, and so many of the share: writes a row of seven words for each state.
#[unsafe(no_mangle)]
pub extern "C" fn micro_price_fit_counts_with(
    config: &[u64],
    rec: &[u64],
    stay: &[u64],
    moved: &[u64],
    move_half_ticks: &[i64],
    series_rounds: u64,
    fallback_rounds: u64,
    scratch: &mut [f64],
    model: &mut [u64],
) -> u64
    ensures { lent_fit result model.new scratch.new
        ≡ fit_with_words series_rounds fallback_rounds config.now rec.now stay.now moved.now move_half_ticks.now model.old scratch.old }
{
    abi_fit::micro_price_fit_counts_with(
        config,
        rec,
        stay,
        moved,
        move_half_ticks,
        series_rounds,
        fallback_rounds,
        scratch,
        model,
    )
}

// Fits the model with the default rounds.
#[unsafe(no_mangle)]
pub extern "C" fn micro_price_fit_counts(
    config: &[u64],
    rec: &[u64],
    stay: &[u64],
    moved: &[u64],
    move_half_ticks: &[i64],
    scratch: &mut [f64],
    model: &mut [u64],
) -> u64
    ensures { lent_fit result model.new scratch.new ≡ fit_words config.now rec.now stay.now moved.now move_half_ticks.now model.old scratch.old }
{
    abi_fit::micro_price_fit_counts(config, rec, stay, moved, move_half_ticks, scratch, model)
}

// The part of a recording with start ≤ time < end: its first quote, and the one past its last.
#[unsafe(no_mangle)]
pub extern "C" fn micro_price_window_of(
    recording: &[u64],
    start: u64,
    end: u64,
    first: &mut u64,
    past: &mut u64,
) -> u64
    ensures { lent_ends result first.new past.new ≡ window_words recording.now start end first.old past.old }
{
    abi_fit::micro_price_window_of(recording, start, end, first, past)
}
