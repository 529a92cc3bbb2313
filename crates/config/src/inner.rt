// Inner functions: for the crates above, not for users. Where one has a `requires`, each caller proves it.
ghost use Rattle.std.specs.Prelude.{◌≡◌, true};
ghost use Rattle.config.specs.Configuration.{shape, valid, states, is_config, config_words, config_of};
ghost use Rattle.config.specs.Inner.{Valid};

use super::MicroPriceConfig;
use basics::DOMAIN;

// Most states. Where a function needs that a number of states or buckets is at most that, it has a clause: a struct of one number would be made anew at each
// call.
const MAX_STATES: u64 = 256;

// The first two tests keep the product within a word; `checked_mul` would divide.
fn is_shape(n: u64, s: u64) -> bool
    ensures { result ≡ shape n s }
{
    n <= MAX_STATES && s <= MAX_STATES && (3 <= n) & (n % 2 == 1) & (1 <= s) & (n * s <= MAX_STATES)
}

pub fn is_valid(config: MicroPriceConfig) -> bool
    ensures { result ≡ valid config }
{
    (1 <= config.tick_size)
        & (config.tick_size <= DOMAIN)
        & is_shape(config.imbalance_buckets, config.spread_states)
        & (1 <= config.min_state_observations)
        & (1 <= config.max_quote_gap_ms)
}

// Document 01's N. `Valid` is a clause: a struct of a valid configuration would be made anew in each operation, after refusal 1, and every clause would say
// `c.config`.
pub fn state_count(config: MicroPriceConfig) -> usize
    requires { Valid config }
    ensures { result ≡ states config }
{
    (config.imbalance_buckets * config.spread_states) as usize
}

// How many words a configuration has.
pub const CONFIG_WORDS: usize = 5;

// The configuration of its words. No `From<[u64; 5]>`: the exported functions hold slices, and each would copy one into an array first.
pub fn config_of(w: &[u64]) -> MicroPriceConfig
    requires { is_config w.now ≡ true }
    ensures { result ≡ config_of w.now }
{
    MicroPriceConfig::new(w[0], w[1], w[2])
        .with_min_state_observations(w[3])
        .with_max_quote_gap_ms(w[4])
}

// Writes the words of a configuration. No `From`: they stand in a lent slice.
pub fn put_config(w: &mut [u64], config: MicroPriceConfig)
    requires { is_config w.old ≡ true }
    ensures { w.new ≡ config_words config }
{
    w.copy_from_slice(&[
        config.tick_size,
        config.imbalance_buckets,
        config.spread_states,
        config.min_state_observations,
        config.max_quote_gap_ms,
    ]);
}
