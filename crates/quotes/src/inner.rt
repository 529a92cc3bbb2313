// Inner functions: for the crates above, not for users. Where one has a `requires`, each caller proves it.
ghost use Rattle.std.specs.Prelude.{◌≡◌, ◌+◌, ◌-◌, ◌*◌, ◌≤◌, ◌<◌};
ghost use Rattle.basics.specs.Domain.{most};
ghost use Rattle.config.specs.Inner.{Valid};
ghost use Rattle.quotes.specs.Quotes.{over_domain, bad_quote, on_grid, in_ticks, off_tick, check_quote, spread_of, half_ticks};
ghost use Rattle.quotes.specs.Inner.{Accepted, InLevel, HasLevel};
ghost use Rattle.quotes.specs.States.{lower_bucket, bucket_of, mirror_of, place_of};
ghost use Rattle.quotes.specs.Neighbours.{paired, neighbours_of};

use super::{At, Pair, Reason, Skip, TopOfBook};
use basics::DOMAIN;
use config::MicroPriceConfig;
use refusals::Refusal;

// The states of one spread: the spread in ticks and the first of them.
#[derive(Clone, Copy)]
pub struct Level {
    pub spread: u64,
    pub first: usize,
}

impl Level {
    // That of state 0.
    pub const FIRST: Level = Level {
        spread: 1,
        first: 0,
    };
}

fn is_over(q: TopOfBook) -> bool
    ensures { result ≡ over_domain q }
{
    (DOMAIN < q.bid) | (DOMAIN < q.ask) | (DOMAIN < q.bid_size) | (DOMAIN < q.ask_size)
}

fn is_bad(q: TopOfBook) -> bool
    ensures { result ≡ bad_quote q }
{
    (q.bid == 0) | (q.ask <= q.bid) | ((q.bid_size == 0) & (q.ask_size == 0))
}

// That the tick is at least 1 is a clause: the field may hold any word, and a `NonZeroU64` beside the configuration would be a second tick.
fn on_grid(config: MicroPriceConfig, price: u64) -> bool
    requires { 1 ≤ config.tick_size }
    ensures { result ≡ on_grid config price }
{
    price % config.tick_size == 0
}

fn in_ticks(config: MicroPriceConfig, price: u64) -> u64
    requires { 1 ≤ config.tick_size }
    ensures { result ≡ in_ticks config price }
{
    price / config.tick_size
}

fn is_off_tick(config: MicroPriceConfig, q: TopOfBook) -> bool
    requires { 1 ≤ config.tick_size }
    ensures { result ≡ off_tick config q }
{
    !on_grid(config, q.bid) | !on_grid(config, q.ask)
}

// The first of refusals 2, 3 and 4.
pub fn check_quote(config: MicroPriceConfig, q: TopOfBook) -> Result<(), Refusal>
    requires { 1 ≤ config.tick_size }
    ensures { result ≡ check_quote config q }
{
    if is_over(q) {
        return Err(Refusal::OverDomain);
    }
    if is_bad(q) {
        return Err(Refusal::BadQuote);
    }
    if is_off_tick(config, q) {
        return Err(Refusal::OffTick);
    }
    Ok(())
}

// The bucket of a book with `lighter` on the bid, by one division; 1 stands in for 0, as both give bucket 0.
fn lower_bucket(lighter: u64, heavier: u64, n: u64) -> u64
    requires { (lighter ≤ heavier) × (1 ≤ heavier) × (heavier ≤ most) × (2 ≤ n) × (n ≤ 256) }
    ensures { result ≡ lower_bucket lighter heavier n }
{
    let scaled = (lighter * n).max(1);
    (scaled - 1) / (lighter + heavier)
}

fn bucket_of(bid: u64, ask: u64, n: u64) -> u64
    requires { (bid ≤ most) × (ask ≤ most) × (1 ≤ bid + ask) × (2 ≤ n) × (n ≤ 256) }
    ensures { result ≡ bucket_of bid ask n }
{
    let b = lower_bucket(bid.min(ask), bid.max(ask), n);
    if bid <= ask { b } else { n - 1 - b }
}

// `Accepted` is of a quote under a configuration, and a clause: a struct of both would hold a configuration for each quote of a pair, and the two would
// have to be the same.
fn spread_of(config: MicroPriceConfig, q: TopOfBook) -> u64
    requires { Valid config × Accepted config q }
    ensures { result ≡ spread_of config q }
{
    in_ticks(config, q.ask) - in_ticks(config, q.bid)
}

pub fn half_ticks(config: MicroPriceConfig, q: TopOfBook) -> u64
    requires { Valid config × Accepted config q }
    ensures { result ≡ half_ticks config q }
{
    in_ticks(config, q.bid) + in_ticks(config, q.ask)
}

// The place of an accepted quote. The mirror is counted from the first state of the spread, without a remainder.
pub fn place_of(config: MicroPriceConfig, q: TopOfBook) -> Result<At, Reason>
    requires { Valid config × Accepted config q }
    ensures { result ≡ place_of config q }
{
    let spread = spread_of(config, q);
    if config.spread_states < spread {
        return Err(Reason::SpreadOutOfRange);
    }
    let n = config.imbalance_buckets;
    let bucket = bucket_of(q.bid_size, q.ask_size, n);
    let first = (spread - 1) * n;
    Ok(At {
        state: (first + bucket) as usize,
        mirror: (first + (n - 1 - bucket)) as usize,
    })
}

// The mirror of a state of the spread level that begins at `first`.
pub fn mirror_in(n: usize, first: usize, state: usize) -> usize
    requires { InLevel n first state × (n ≤ 256) × (state < 256) }
    ensures { result ≡ mirror_of n state }
{
    first + (n - 1 - (state - first))
}

// The spread level of the state after `state`, whose own is `level`. `HasLevel` is a clause: a struct of level and state would still have to be of the
// configuration's n.
pub fn level_after(n: usize, level: Level, state: usize) -> Level
    requires { HasLevel n level state × (n ≤ 256) × (state < 256) }
    ensures { HasLevel n result (state + 1) }
{
    if state + 1 < level.first + n {
        return level;
    }
    Level {
        spread: level.spread + 1,
        first: level.first + n,
    }
}

// The mirror of any state: its spread level is found by adding n, without a division.
pub fn mirror_of(n: u64, state: usize) -> usize
    requires { (1 ≤ n) × (n ≤ 256) × (state < 256) }
    ensures { result ≡ mirror_of n state }
{
    let w = n as usize;
    // A walk by n, and no `for`: mirroring makes no division by n, and how many rounds there are is what is looked for.
    let mut first: usize = 0;
    while first + w <= state {
        first += w;
    }
    mirror_in(w, first, state)
}

fn pair_of(config: MicroPriceConfig, p: TopOfBook, q: TopOfBook) -> Result<Pair, Skip>
    requires { Valid config × Accepted config p × Accepted config q }
    ensures { result ≡ paired (place_of config p) (place_of config q) (half_ticks config p) (half_ticks config q) }
{
    let from = place_of(config, p).map_err(|_| Skip::Spread)?;
    let to = place_of(config, q).map_err(|_| Skip::Spread)?;
    Ok(Pair {
        from,
        to,
        mid_from: half_ticks(config, p),
        mid_to: half_ticks(config, q),
    })
}

// What two accepted quotes are, the earlier one first.
pub fn neighbours(config: MicroPriceConfig, p: TopOfBook, q: TopOfBook) -> Result<Pair, Skip>
    requires { Valid config × Accepted config p × Accepted config q × (p.timestamp_ms ≤ q.timestamp_ms) }
    ensures { result ≡ neighbours_of config p q }
{
    if config.max_quote_gap_ms < q.timestamp_ms - p.timestamp_ms {
        return Err(Skip::Gap);
    }
    pair_of(config, p, q)
}
