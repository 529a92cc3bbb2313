// The theorems of demand 3 on fitted models, their signals and evenings. No code.

#![tactic(auto)]
