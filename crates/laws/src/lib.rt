// Mathematics that the crates above cite: choices by a test, integers, sums, tables proved by a test, blocks of eight rows of eight. See specs/.
#![tactic(auto)]
