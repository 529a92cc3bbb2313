// The series and the share of the fit (document 01, "The fit").
#![tactic(auto)]

pub mod inner;

// The largest size of a term became infinite, or the rounds ran out while it was 1e-12 or more.
#[derive(Clone, Copy, Debug, PartialEq, Eq)]
pub struct NotConverged;
