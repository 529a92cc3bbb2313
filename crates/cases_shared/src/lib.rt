// What the program `cases_sample` and those of tests/lent share: the words of a case read from a line, tables filled from them, answers shown.
// The functions are inner; where one has a `requires`, each caller proves it.
#![tactic(auto)]

pub mod reading;
pub mod showing;
pub mod tables;
