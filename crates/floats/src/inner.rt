// Inner functions: for the crates above, not for users. Where one has a `requires`, each caller proves it.
ghost use Rattle.std.specs.Prelude.{◌≡◌, true, ◌*◌, ◌≤◌, pos};
ghost use Rattle.std.specs.Float.{binary64};
ghost use Rattle.std.specs.Float.Ieee.{in_float};
ghost use Rattle.floats.specs.Floats.{exact_whole, from_int, half_tick, half_spread};

// A whole number as a float, exactly.
pub fn from_u64(n: u64) -> f64
    requires { n ≤ exact_whole }
    ensures { result ≡ from_int (pos n) }
{
    n as f64
}

// A whole number of either sign as a float, exactly: from -2^53 to 2^53. Apart from `from_u64`: one for both would need a trait with each type's condition.
pub fn from_i64(n: i64) -> f64
    requires { in_float binary64 n ≡ true }
    ensures { result ≡ from_int n }
{
    n as f64
}

// Half a tick.
#[tactic(auto, unfolding(crate::specs::Floats::half))]
pub fn half_tick(tick: u64) -> f64
    requires { tick ≤ exact_whole }
    ensures { result ≡ half_tick tick }
{
    from_u64(tick) / 2.0
}

// Half a spread of so many ticks.
#[tactic(auto, unfolding(crate::specs::Floats::half))]
pub fn half_spread(tick_size: u64, spread_ticks: u64) -> f64
    requires { tick_size * spread_ticks ≤ exact_whole }
    ensures { result ≡ half_spread tick_size spread_ticks }
{
    from_u64(tick_size * spread_ticks) / 2.0
}
