// The solver of the fit (document 01, "The fit").
#![tactic(auto)]

pub mod inner;

// A column has no pivot: the greatest size in it is below 1e-12.
#[derive(Clone, Copy, Debug, PartialEq, Eq)]
pub struct Singular;
