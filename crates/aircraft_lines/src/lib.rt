// What a line of the program aircraft asks.
#![tactic(auto)]

mod asking;
mod commands;
mod fields;
mod values;

use airframe::Form;
pub use asking::read_line;
use packets::Command;

// A line of the table. An answer's bytes lie in lent memory, so many from its start. Outside is a command whose numbers no command
// can hold: a line with an answer of its own, and not the None of a line that is none.
#[derive(Clone, Copy)]
pub enum Line {
    Send(Command),
    Outside,
    Take(u8, Form),
    Hear(usize),
    Wait,
    Again,
}
