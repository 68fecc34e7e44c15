// Theorems alone: two outcomes that a promise allows are equal. Assumes nothing.
#![tactic(auto)]
