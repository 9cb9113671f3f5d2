// A line of the programs answered.
#![tactic(auto)]

mod answering;
mod asking;

pub use answering::answered;
use items::Output;
use line_calls::{Memory, Sizes};
use rules::Pod;

// Which lines a program answers: session packets alone, console those of every port, lab those and its own. A case and no function that is
// handed in: what a text asks (`asking_of`, `own_in`), and with it the promise of a line, is said by the program.
#[derive(Clone, Copy)]
pub enum Program {
    Session,
    Console,
    Lab,
}

// What stands between two lines of a program: what a line's bytes and words are read into, the pod, how much of each thing is lent to the
// next call, the memory that is lent, and the output.
#[derive(Drop)]
pub struct Bench<'a> {
    pub program: Program,
    pub bytes: [u8; 65536],
    pub words: [u16; 65536],
    pub pod: Pod,
    pub sizes: Sizes,
    pub memory: Memory,
    pub out: Output<'a>,
}
