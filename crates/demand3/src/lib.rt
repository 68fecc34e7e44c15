// Theorems alone: demand 3, over any coding. Assumes nothing.
#![tactic(auto)]
