// Lines cut from what is read in pieces, and what each asks.
#![tactic(auto)]

mod asking;
mod cutting;

pub use asking::{one_byte, packet_line, read_line};
use blocks::Store;
pub use cutting::{last, line_end, next_line, text};

// A line of the console's table. Bytes and words lie in lent memory, so many from its start: there is no heap, and `say_line` says how
// many apart from what the memory holds.
#[derive(Clone, Copy)]
pub enum Line {
    Packet(usize),
    Deadline,
    Put(Store, usize),
    Command(u16),
    Data(u16),
    Read,
    Status,
    Samples(u8, usize),
    Byte(u8),
    Timeout,
    Out(usize),
    Taken,
    Power,
}

// Where the next line of a piece starts, and how many characters of it came before the piece: 196607 where they were too many. No Option:
// `held_of`, and with it `cut_of`, says that number of every longer line, a count like the others.
#[derive(Clone, Copy)]
pub struct Cursor {
    pub from: usize,
    pub held: usize,
}

// A line: a part of the piece, as many characters of what is held, or one that is too long.
#[derive(Clone, Copy)]
pub enum Found {
    Here(usize, usize),
    Held(usize),
    Long,
}

// What is found, where a line ends in the piece, and where the next one starts.
#[derive(Clone, Copy)]
pub struct Cut {
    pub found: Option<Found>,
    pub cursor: Cursor,
}
