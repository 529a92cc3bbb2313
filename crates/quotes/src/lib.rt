// Quotes, states and mirrors (document 01, "New, and one quote", "State and mirror").
#![tactic(auto)]

use config::MicroPriceConfig;
use refusals::Refusal;

pub mod inner;

ghost use Rattle.std.specs.Prelude.{◌≡◌};
ghost use Rattle.quotes.specs.Quotes.{quote_of_words};
ghost use Rattle.quotes.specs.States.{state_of, mirror_state_of};
ghost use Rattle.quotes.specs.declared.Reason.TheVariants.{Unusable};

// Best bid and ask with their sizes, in whole units.
#[derive(Clone, Copy)]
pub struct TopOfBook {
    pub timestamp_ms: u64,
    pub bid: u64,
    pub ask: u64,
    pub bid_size: u64,
    pub ask_size: u64,
}

// The quote of its five words.
impl From<[u64; 5]> for TopOfBook {
    ghost from_gives = { λ words quote. quote ≡ quote_of_words words };

    fn from(words: [u64; 5]) -> TopOfBook {
        let [timestamp_ms, bid, ask, bid_size, ask_size] = words;
        TopOfBook {
            timestamp_ms,
            bid,
            ask,
            bid_size,
            ask_size,
        }
    }
}

// A state, by its number, and its mirror's number.
#[derive(Clone, Copy)]
pub struct At {
    pub state: usize,
    pub mirror: usize,
}

// Why a quote has no state.
#[derive(Clone, Copy, Debug, PartialEq, Eq)]
pub enum Reason {
    SpreadOutOfRange,
    // The configuration or the quote is refused.
    Unusable(Refusal),
}

impl From<Refusal> for Reason {
    ghost from_gives = { λ refusal reason. reason ≡ Unusable refusal };

    fn from(refusal: Refusal) -> Reason {
        Reason::Unusable(refusal)
    }
}

// Why two neighbouring quotes are not counted.
#[derive(Clone, Copy, Debug, PartialEq, Eq)]
pub enum Skip {
    Gap,
    Spread,
}

// A counted pair: from state to state, with the mid before and after in half ticks.
#[derive(Clone, Copy)]
pub struct Pair {
    pub from: At,
    pub to: At,
    pub mid_from: u64,
    pub mid_to: u64,
}

// The state of a quote with its mirror, or why it has none.
pub fn state_of(config: MicroPriceConfig, quote: TopOfBook) -> Result<At, Reason>
    ensures { result ≡ state_of config quote }
{
    config.validate()?;
    inner::check_quote(config, quote)?;
    inner::place_of(config, quote)
}

// The state with the imbalance bucket mirrored; none where the configuration has no such state.
pub fn mirror(config: MicroPriceConfig, state: usize) -> Option<usize>
    ensures { result ≡ mirror_state_of config state }
{
    if !config::inner::is_valid(config) {
        return None;
    }
    if config::inner::state_count(config) <= state {
        return None;
    }
    Some(inner::mirror_of(config.imbalance_buckets, state))
}
