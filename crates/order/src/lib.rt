// Theorems alone: the order of a picture's refusals. Assumes nothing.
#![tactic(auto)]
