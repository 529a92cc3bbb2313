// Inner functions of the signal, not for users. Where one has a `requires`, each caller proves it.
ghost use Rattle.std.specs.Prelude.{◌≡◌, ◌<◌};
ghost use Rattle.config.specs.Configuration.{states};
ghost use Rattle.quotes.specs.Inner.{Accepted};
ghost use Rattle.quotes.specs.States.{place_of};
ghost use Rattle.model_signals.specs.Signal.{row_serves, status_of, source_of, adjustment_of, sent, signal_of_row, signal_at};

use super::{MicroPriceSignal, SignalSource};
use config::MicroPriceConfig;
use model::{StateEstimate, StateStatus};
use model_check::inner::{ModelTable, has_status};
use quotes::TopOfBook;
use refusals::Refusal;

#[tactic(auto, unfolding(crate::specs::Signal::row_serves))]
fn row_serves(table: &ModelTable<'_>, i: usize, e: StateEstimate) -> bool
    requires { i < states table.now.config }
    ensures { result ≡ row_serves table.now.config i e }
{
    let half = table.half_spread_of(i);
    // The rule is of the word itself: `try_from(e.status).is_ok()` says it less plainly.
    (e.status <= 3)
        & (!has_status(e, StateStatus::Calibrated)
            | (floats::is_finite(e.adjustment) & (floats::abs(e.adjustment) <= half)))
}

// The status of a row that serves: its word is one's number.
fn status_of(status: u64) -> StateStatus
    ensures { result ≡ status_of status }
{
    StateStatus::try_from(status).unwrap_or(StateStatus::OutsideQuotes)
}

fn source_of(status: u64) -> SignalSource
    ensures { result ≡ source_of status }
{
    match status_of(status) {
        StateStatus::Calibrated => SignalSource::MicroPrice,
        status => SignalSource::MidFallback(status),
    }
}

fn adjustment_of(e: StateEstimate) -> f64
    ensures { result ≡ adjustment_of e }
{
    if has_status(e, StateStatus::Calibrated) {
        e.adjustment
    } else {
        0.0
    }
}

fn signal_of(
    config: MicroPriceConfig,
    quote: TopOfBook,
    adjustment: f64,
    source: SignalSource,
) -> MicroPriceSignal
    requires { Accepted config quote }
    ensures { result ≡ sent quote adjustment source }
{
    MicroPriceSignal {
        timestamp_ms: quote.timestamp_ms,
        mid_sum: quote.bid + quote.ask,
        adjustment,
        source,
    }
}

// The signal of an accepted quote in state i.
fn signal_of_row(
    table: &ModelTable<'_>,
    quote: TopOfBook,
    i: usize,
) -> Result<MicroPriceSignal, Refusal>
    requires { Accepted table.now.config quote × (i < states table.now.config) }
    ensures { result ≡ signal_of_row table.now.config table.now.rows.now quote i }
{
    let e = table.row(i);
    if !row_serves(table, i, e) {
        return Err(Refusal::ModelRow(i));
    }
    Ok(signal_of(table.config, quote, adjustment_of(e), source_of(e.status)))
}

// The signal of an accepted quote.
pub fn signal_at(table: &ModelTable<'_>, quote: TopOfBook) -> Result<MicroPriceSignal, Refusal>
    requires { Accepted table.now.config quote }
    ensures { result ≡ signal_at table.now.config table.now.rows.now quote (place_of table.now.config quote) }
{
    let Ok(at) = quotes::inner::place_of(table.config, quote) else {
        return Ok(signal_of(table.config, quote, 0.0, SignalSource::SpreadOutOfRange));
    };
    signal_of_row(table, quote, at.state)
}
