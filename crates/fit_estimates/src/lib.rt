// The estimate of a state, made of the solution (document 01, "The fit").
// Inner functions: for the fit, not for users. Where one has a `requires`, each caller proves it.
#![tactic(auto)]

ghost use Rattle.std.specs.Prelude.{◌≡◌, cond, ◌≤◌};
ghost use Rattle.basics.specs.Domain.{most};
ghost use Rattle.floats.specs.Floats.{one};
ghost use Rattle.model.specs.Status.{is_calibrated};
ghost use Rattle.fit_estimates.specs.Estimates.{adjusted, judged, estimate_of, small, representable};

use model::{StateEstimate, StateStatus};

// What the solution has for a state and for its mirror.
#[derive(Clone, Copy)]
pub struct Solved {
    pub first_own: f64,
    pub first_mirrored: f64,
    pub own: f64,
    pub mirrored: f64,
    pub share: f64,
}

#[tactic(auto, unfolding(crate::specs::Estimates::adjusted))]
fn adjust(tick: u64, own: f64, mirrored: f64) -> f64
    requires { tick ≤ most }
    ensures { result ≡ adjusted tick own mirrored }
{
    (own - mirrored) / 2.0 * floats::inner::half_tick(tick)
}

// The status, by the mark.
fn judge_status(mark: StateStatus, half: f64, adjustment: f64) -> StateStatus
    ensures { result ≡ judged mark half adjustment }
{
    if mark == StateStatus::Calibrated && half < floats::abs(adjustment) {
        return StateStatus::OutsideQuotes;
    }
    mark
}

// The share, by the mark.
fn share_of(mark: StateStatus, share: f64) -> f64
    ensures { result ≡ cond (is_calibrated mark) share one }
{
    if mark == StateStatus::Calibrated {
        return share;
    }
    1.0
}

#[tactic(auto, unfolding(crate::specs::Estimates::estimate_of))]
pub fn estimate_of(
    tick: u64,
    bucket: u64,
    spread: u64,
    mark: StateStatus,
    observed: u64,
    s: Solved,
) -> StateEstimate
    requires { (tick ≤ most) × (spread ≤ 256) }
    ensures { result ≡ estimate_of tick bucket spread mark observed s }
{
    let adjustment = adjust(tick, s.own, s.mirrored);
    let half = floats::inner::half_spread(tick, spread);
    StateEstimate {
        imbalance_bucket: bucket,
        spread_ticks: spread,
        observations: observed,
        first_adjustment: adjust(tick, s.first_own, s.first_mirrored),
        adjustment,
        fallback_within_moves: share_of(mark, s.share),
        status: u64::from(judge_status(mark, half, adjustment)),
    }
}

// Finite and of size below 2^96.
fn is_small(x: f64) -> bool
    ensures { result ≡ small x }
{
    floats::abs(x) < 79228162514264337593543950336.0
}

pub fn is_representable(e: StateEstimate) -> bool
    ensures { result ≡ representable e }
{
    is_small(e.first_adjustment) & (is_small(e.adjustment) & is_small(e.fallback_within_moves))
}
