// Helpers on binary64, each total (document 01, "Forms to change": abs, max, clamp, total_cmp).
#![tactic(auto)]

pub mod inner;

ghost use Rattle.std.specs.Prelude.{◌≡◌};
ghost use Rattle.std.specs.Float.Ieee.Scale.{finite};
ghost use Rattle.floats.specs.Floats as Floats;

use std::num::{f64_from_bits_with_nan, f64_to_bits_with_nan};

// The size of a float.
#[tactic(auto, using(crate::proofs::Helpers::abs_is))]
pub fn abs(x: f64) -> f64
    ensures { result ≡ Floats.abs x }
{
    x.abs()
}

// Of two sizes, the second is as great or greater; NaN is above all and equal to any NaN.
#[tactic(auto, unfolding(crate::specs::Floats::as_great))]
pub fn as_great(x: f64, y: f64) -> bool
    ensures { result ≡ Floats.as_great x y }
{
    y.is_nan() | (x <= y)
}

// The larger of two; NaN is passed over. The library's `max` may answer either of two that are equal, as 0 and -0; this the first.
#[tactic(auto, using(crate::proofs::Helpers::max_second, crate::proofs::Helpers::max_first))]
pub fn max(x: f64, y: f64) -> f64
    ensures { result ≡ Floats.max x y }
{
    if x.is_nan() | (x < y) { y } else { x }
}

#[tactic(auto, using(crate::proofs::Helpers::infinite_is))]
pub fn is_infinite(x: f64) -> bool
    ensures { result ≡ Floats.is_infinite x }
{
    x.is_infinite()
}

#[tactic(auto, using(crate::proofs::Helpers::finite_is))]
pub fn is_finite(x: f64) -> bool
    ensures { result ≡ finite x }
{
    x.is_finite()
}

// Clamps to 0..1; NaN stays.
#[tactic(auto, unfolding(crate::specs::Floats::clamp))]
pub fn clamp(x: f64) -> f64
    ensures { result ≡ Floats.clamp x }
{
    x.clamp(0.0, 1.0)
}

// Zero as plus zero.
pub fn plus_zero(x: f64) -> f64
    ensures { result ≡ Floats.plus_zero x }
{
    if x == 0.0 { 0.0 } else { x }
}

// The bits, any NaN's as one pattern: the machine's NaN may have any, and `f64::to_bits` asks that there is none.
pub fn to_bits(x: f64) -> u64
    ensures { result ≡ Floats.bits_of x }
{
    f64_to_bits_with_nan(x)
}

// The float of any bits; every NaN pattern is NaN, of which `f64::from_bits` asks that there is none.
pub fn from_bits(bits: u64) -> f64
    ensures { result ≡ Floats.from_bits bits }
{
    f64_from_bits_with_nan(bits)
}
