// Theorems alone: the wrong programs that document 01 names. Assumes nothing.
#![tactic(auto)]
