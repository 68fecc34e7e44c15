// From levels to samples: dequantiser, and the sum of prediction and transform output, on blocks of eight rows of eight by value.
#![tactic(auto)]

pub mod cut;
pub mod dequantise;
pub mod sample;
