// Theorems alone: the proof sheet of document 01. Assumes nothing.
#![tactic(auto)]
