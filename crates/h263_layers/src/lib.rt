// The layers of an H.263 picture: header, group head, macroblock, vector and blocks, from bits to the places of a description, or the refusal.
#![tactic(auto)]

pub mod block;
pub mod head;
pub mod macroblock;
pub mod start;
pub mod vector;

// What a picture's header says: TR, PTYPE bits 3 to 5, the type and PQUANT.
#[derive(Clone, Copy, PartialEq, Eq)]
pub struct Header {
    pub tr: u8,
    pub ptype: u8,
    pub kind: u8,
    pub pquant: u8,
}

// What stands where a macroblock is to begin: stuffing, or the macroblock, with its MCBPC if it is sent.
#[derive(Clone, Copy, PartialEq, Eq)]
pub enum Found {
    Stuffing,
    Macroblock(Option<u32>),
}

// A macroblock once its header, if one stood there, and stuffing are read: its group's GQUANT, 0 where no header stands, and its MCBPC, if it is sent.
#[derive(Clone, Copy, PartialEq, Eq)]
pub struct Opened {
    pub gquant: u32,
    pub mcbpc: Option<u32>,
}
