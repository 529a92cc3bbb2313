// Demand 3 of the exported functions: what a list of calls by include/micro_price.h leaves is what its history says. Definitions and proofs; no code.

#![tactic(auto)]
