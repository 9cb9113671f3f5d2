// What a line of `X` sets: a part of the state, whatever bound it then breaks.
#![tactic(auto)]

mod cells;
mod fields;
mod setting;

use blocks::Store;
use rules::{Exchange, Pod};
pub use setting::set;
use tables::{Table, Transfer};

// A field of Initialise and Update.
#[derive(Clone, Copy)]
pub enum Field {
    Mode,
    Flags,
    Seconds,
    Milliseconds,
    Limit(Store),
    Remaining(Store),
    Poll,
}

// A part of the state that a number from 0 on says. A mark has its id, a missing id its place in the kept list.
#[derive(Clone, Copy)]
pub enum Cell {
    Initialised,
    Field(Field),
    Written(u8),
    Missing(u8),
    Error,
    Place(Table),
    Oldest(Store),
    Waiting(Store),
    Gathered,
    Timeouts,
    Out,
    Outtimeouts,
}

// What is lent to a call.
#[derive(Clone, Copy)]
pub enum Thing {
    Room,
    Store(Store),
    Table(Table),
}

// What a line of `X` or `L` asks for: a part with what it becomes, a thing with its size. A parameter has its id.
// A cell has a number, a mark too, which is then 0 or 1: `in_range` and `cell_set` say it so.
#[derive(Clone, Copy)]
pub enum Change {
    Cell(Cell, u64),
    Value(u8, i32),
    Exchange(Exchange),
    Address(Option<u16>),
    Transfer(Transfer),
    Thing(Thing, usize),
}
