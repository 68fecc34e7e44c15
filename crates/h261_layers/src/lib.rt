// The layers of a picture below its groups: header, group head, macroblock, vector and blocks, from bits to the places of a description, or the refusal.
#![tactic(auto)]

pub mod block;
pub mod head;
pub mod macroblock;
pub mod vector;

// What stands at an MBA place: a step to the next macroblock that is sent, stuffing, or the group's end.
#[derive(Clone, Copy, PartialEq, Eq, Debug)]
pub enum Mba {
    Step(usize),
    Stuffing,
    Ended,
}

// What the last macroblock of a group leaves behind: its address, 0 before the first, and its vector, zero where it isn't MC.
#[derive(Clone, Copy, PartialEq, Eq, Debug)]
pub struct Behind {
    pub address: usize,
    pub horizontal: u8,
    pub vertical: u8,
}
