// Definitions and laws on tests and lists that the other crates share, and document 01's domain and limits.
#![tactic(auto)]

// The largest price, size and tick.
pub const DOMAIN: u64 = 1_000_000_000;

// The limit of a counter of pairs or skips, 2^52.
pub const COUNTER_LIMIT: u64 = 4_503_599_627_370_496;

// The limit of a cell, and of a total's size, 2^53.
pub const CELL_LIMIT: u64 = 9_007_199_254_740_992;
