// Rows and blocks of a store, what is added to a block, and a macroblock that isn't sent: what drawing a picture takes, for both standards.
#![tactic(auto)]

pub mod blocks;
pub mod draw;
pub mod levels;
pub mod macroblock;
pub mod rows;
