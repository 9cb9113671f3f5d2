// The names of the lines `X` and `L`, each behind its letter.
#![tactic(auto)]

mod names;
mod table;

use lab_sets::{Cell, Thing};
pub use names::named;

// What a name stands for. A parameter has its id.
#[derive(Clone, Copy)]
pub enum Part {
    Cell(Cell),
    Value(u8),
    Exchange,
    Address,
    Transfer,
    Thing(Thing),
}
