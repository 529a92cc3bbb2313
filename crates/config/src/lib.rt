// A configuration (document 01, "New, and one quote"): its defaults, and whether it is valid.
#![tactic(auto)]

use refusals::Refusal;

pub mod inner;

ghost use Rattle.std.specs.Prelude.{◌≡◌};
ghost use Rattle.config.specs.Configuration.{new_config, with_min_state_observations, with_max_quote_gap_ms, check_config};

// Discretization and data rules of the estimator. Any words may stand in it; `validate` judges them.
#[derive(Clone, Copy, Debug, PartialEq, Eq)]
pub struct MicroPriceConfig {
    // Price grid, in units.
    pub tick_size: u64,
    // Imbalance buckets, document 01's n.
    pub imbalance_buckets: u64,
    // Spreads of 1 to this many ticks, document 01's s.
    pub spread_states: u64,
    // Fewest pairs, mirrors included, for a state to be calibrated.
    pub min_state_observations: u64,
    // Longest time between two quotes of a pair, in milliseconds.
    pub max_quote_gap_ms: u64,
}

impl MicroPriceConfig {
    pub const MIN_STATE_OBSERVATIONS: u64 = 100;

    // Document 02, Q-5; document 01 has 60,000.
    pub const MAX_QUOTE_GAP_MS: u64 = 5_000;

    // A configuration with the default observations and gap.
    pub fn new(tick_size: u64, imbalance_buckets: u64, spread_states: u64) -> Self
        ensures { result ≡ new_config tick_size imbalance_buckets spread_states }
    {
        Self {
            tick_size,
            imbalance_buckets,
            spread_states,
            min_state_observations: MicroPriceConfig::MIN_STATE_OBSERVATIONS,
            max_quote_gap_ms: MicroPriceConfig::MAX_QUOTE_GAP_MS,
        }
    }

    // Sets the fewest observations for a state to be calibrated.
    pub fn with_min_state_observations(mut self, observations: u64) -> Self
        ensures { result ≡ with_min_state_observations self observations }
    {
        self.min_state_observations = observations;
        self
    }

    // Sets the longest time between two quotes of a pair.
    pub fn with_max_quote_gap_ms(mut self, gap_ms: u64) -> Self
        ensures { result ≡ with_max_quote_gap_ms self gap_ms }
    {
        self.max_quote_gap_ms = gap_ms;
        self
    }

    // Refuses a configuration that is not valid.
    pub fn validate(self) -> Result<(), Refusal>
        ensures { result ≡ check_config self }
    {
        if inner::is_valid(self) {
            Ok(())
        } else {
            Err(Refusal::Configuration)
        }
    }
}
