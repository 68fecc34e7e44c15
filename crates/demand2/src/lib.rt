// Theorems alone: demand 2, over any decoder and any writer. Assumes nothing.
#![tactic(auto)]
