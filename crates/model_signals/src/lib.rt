// The signal (document 01, "Model and signal").
#![tactic(auto)]

pub mod inner;

ghost use Rattle.std.specs.Prelude.{◌≡◌};
ghost use Rattle.model_signals.specs.Signal.{source_number, signal_of};

use config::MicroPriceConfig;
use model::StateStatus;
use model_check::inner::ModelTable;
use quotes::TopOfBook;
use refusals::Refusal;

// Why a signal is what it is: `source_number` of specs/Signal.antt.
#[derive(Clone, Copy)]
pub enum SignalSource {
    // The mid plus the calibrated adjustment.
    MicroPrice,
    // The mid, for this state's status.
    MidFallback(StateStatus),
    // The mid, for a spread over the configuration's spread states.
    SpreadOutOfRange,
}

impl From<SignalSource> for u64 {
    ghost from_gives = { λ source number. number ≡ source_number source };

    fn from(source: SignalSource) -> u64 {
        match source {
            SignalSource::MicroPrice => 0,
            SignalSource::MidFallback(status) => u64::from(status),
            SignalSource::SpreadOutOfRange => 4,
        }
    }
}

// A fair value at the time of a quote. The sum of mid and adjustment, the Rust's `price`, is not formed.
#[derive(Clone, Copy)]
pub struct MicroPriceSignal {
    // Time of the quote it was computed from.
    pub timestamp_ms: u64,
    // Bid + ask, twice the mid.
    pub mid_sum: u64,
    // In price units; 0 unless the source is the micro-price.
    pub adjustment: f64,
    // Whether the adjustment is the model's or a fallback.
    pub source: SignalSource,
}

// The signal of a quote. Of the table only the row of the quote's state is read.
pub fn signal(
    config: MicroPriceConfig,
    model: &[u64],
    quote: TopOfBook,
) -> Result<MicroPriceSignal, Refusal>
    ensures { result ≡ signal_of config model.now quote }
{
    let table = ModelTable::of(config, model)?;
    quotes::inner::check_quote(config, quote)?;
    inner::signal_at(&table, quote)
}
