// The command word of the table port: its parts, and what it asks for.
#![tactic(auto)]

mod asked;

pub use asked::{allowed, heard};

#[derive(Clone, Copy, Debug, PartialEq, Eq)]
pub enum Table {
    Five,
    Six,
    Seven,
}

// The parts of a command word.
#[derive(Clone, Copy)]
pub struct Parts {
    pub odd: bool,
    pub reads: bool,
    pub command: u16,
    pub n: u16,
}

// What a command word that is accepted asks for.
#[derive(Clone, Copy, Debug, PartialEq, Eq)]
pub enum Order {
    Stop,
    Restart,
    Next,
    Writing { table: Table, n: u8 },
    Reading { table: Table, n: u8 },
}
