// What the definitions of writing write, those of reading read back; and what reading can give at all: theorems alone.
#![tactic(auto)]
