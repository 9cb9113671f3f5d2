// The call that a line asks, and its answer printed.
#![tactic(auto)]

mod answering;
mod calling;

pub use answering::{answer, answer_in, right_sizes};

// The memory of a program, which it lends to the calls. Each thing is larger than what they ask for, so that it can be lent at other
// sizes too.
#[derive(Drop)]
pub struct Memory {
    pub room: [u8; 1284],
    pub priority: [u8; 5120],
    pub ordinary: [u8; 33792],
    pub five: [u16; 1088],
    pub six: [u16; 1152],
    pub seven: [u16; 1088],
    pub load: [u16; 64],
}

// How much of each thing is lent: bytes of the answer room and of the stores, words of the tables.
#[derive(Clone, Copy)]
pub struct Sizes {
    pub room: usize,
    pub priority: usize,
    pub ordinary: usize,
    pub five: usize,
    pub six: usize,
    pub seven: usize,
}
