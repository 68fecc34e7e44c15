// Theorems alone: what a salvaged clip and its log are, over any coding. Assumes nothing.
#![tactic(auto)]
