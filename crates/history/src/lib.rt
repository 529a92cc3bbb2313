// Demand 3: what a list of quotes, saves and restores comes to (document 01, "The history"). No code.

#![tactic(auto)]
