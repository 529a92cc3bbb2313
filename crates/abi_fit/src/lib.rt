// The fit and the window for callers in C and Rust: numbers and lent slices alone. include/micro_price.h says how they are called.
#![tactic(auto)]

ghost use Rattle.std.specs.Prelude.{◌≡◌};
ghost use Rattle.abi_fit.specs.FitWindow.{lent_fit, fit_with_words, fit_words, lent_ends, window_words};

use abi_encoding::BAD_ENCODING;
use fit_rounds::Rounds;
use tally::TablesView;

// Fits the model with at most so many rounds of the series, and so many of the share: writes a row of seven words for each state.
#[unsafe(no_mangle)]
pub extern "C" fn micro_price_fit_counts_with(
    config: &[u64],
    rec: &[u64],
    stay: &[u64],
    moved: &[u64],
    move_half_ticks: &[i64],
    series_rounds: u64,
    fallback_rounds: u64,
    scratch: &mut [f64],
    model: &mut [u64],
) -> u64
    ensures { lent_fit result model.new scratch.new
        ≡ fit_with_words series_rounds fallback_rounds config.now rec.now stay.now moved.now move_half_ticks.now model.old scratch.old }
{
    if !abi_encoding::is_encoded(config, rec) {
        return BAD_ENCODING;
    }
    let tables = TablesView {
        stay,
        moved,
        move_half_ticks,
    };
    let rounds = Rounds {
        series: series_rounds,
        fallback: fallback_rounds,
    };
    let answer = fit::inner::fit_counts_with(
        abi_encoding::record_of(rec),
        tables,
        config::inner::config_of(config),
        rounds,
        scratch,
        model,
    );
    refusals::check_number(answer)
}

// Fits the model with the default rounds.
#[unsafe(no_mangle)]
pub extern "C" fn micro_price_fit_counts(
    config: &[u64],
    rec: &[u64],
    stay: &[u64],
    moved: &[u64],
    move_half_ticks: &[i64],
    scratch: &mut [f64],
    model: &mut [u64],
) -> u64
    ensures { lent_fit result model.new scratch.new ≡ fit_words config.now rec.now stay.now moved.now move_half_ticks.now model.old scratch.old }
{
    micro_price_fit_counts_with(
        config,
        rec,
        stay,
        moved,
        move_half_ticks,
        Rounds::MAX_SERIES_TERMS,
        Rounds::FALLBACK_HORIZON_MOVES,
        scratch,
        model,
    )
}

// The part of a recording with start ≤ time < end: its first quote, and the one past its last.
#[unsafe(no_mangle)]
pub extern "C" fn micro_price_window_of(
    recording: &[u64],
    start: u64,
    end: u64,
    first: &mut u64,
    past: &mut u64,
) -> u64
    ensures { lent_ends result first.new past.new ≡ window_words recording.now start end first.old past.old }
{
    match recording::window_of(recording, start, end) {
        Ok(ends) => {
            *first = ends.first as u64;
            *past = ends.past as u64;
            0
        }
        Err(refusal) => refusal.number(),
    }
}
