// The rounds of a fit (document 02, Q-10): their defaults, and the ranges that they are judged by.
#![tactic(auto)]

ghost use Rattle.std.specs.Prelude.{◌≡◌};
ghost use Rattle.fit_rounds.specs.Rounds.{default_series_rounds, default_fallback_rounds, wrong_rounds};

// How many rounds a fit may make. Any words may stand in it; `are_wrong` judges them. `default` has the defaults below.
#[derive(Clone, Copy, Debug, PartialEq, Eq)]
pub struct Rounds {
    // Most rounds of the series.
    pub series: u64,
    // Rounds of the share, each a mid move.
    pub fallback: u64,
}

impl Default for Rounds {
    ghost is_default = { λ rounds. (rounds.series ≡ default_series_rounds) × (rounds.fallback ≡ default_fallback_rounds) };

    fn default() -> Rounds {
        Rounds {
            series: Rounds::MAX_SERIES_TERMS,
            fallback: Rounds::FALLBACK_HORIZON_MOVES,
        }
    }
}

impl Rounds {
    // The defaults, document 01's numbers by the Rust's names.
    pub const MAX_SERIES_TERMS: u64 = 10_000;

    pub const FALLBACK_HORIZON_MOVES: u64 = 10;

    // The largest numbers that are accepted.
    pub const SERIES_ROUNDS_LIMIT: u64 = 10_000;

    pub const FALLBACK_ROUNDS_LIMIT: u64 = 100;

    // Whether a number is outside of its range. For the crates above, not for users.
    pub fn are_wrong(self) -> bool
        ensures { result ≡ wrong_rounds self.series self.fallback }
    {
        !(1..=Rounds::SERIES_ROUNDS_LIMIT).contains(&self.series)
            || Rounds::FALLBACK_ROUNDS_LIMIT < self.fallback
    }
}
