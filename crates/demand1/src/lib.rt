// Theorems alone: demand 1, over any programs of the entry points' kinds. Assumes nothing.
#![tactic(auto)]
