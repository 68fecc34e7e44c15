// A picture as a value, laid out in three slices and read back, over groups of any length: what a description is in both standards.
#![tactic(auto)]

pub mod code;
