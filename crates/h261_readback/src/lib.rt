// What the definitions of writing write, those of reading read back: theorems alone.
#![tactic(auto)]
