// Theorems alone: nothing that the demands say of a clip or of a description is empty. Assumes nothing.
#![tactic(auto)]
