// What a line of the program aircraft is answered, and what is on its way after it.
#![tactic(auto)]

ghost use Rattle.std.specs.Prelude.{◌≤◌};

mod answering;
mod meanings;
mod outcomes;

use airframe::Sending;
pub use answering::answer;

// What is on its way: how often it may still be sent, and its bytes, so many from the start of the room. The room is fixed memory.
#[derive(Clone, Copy)]
pub struct Underway {
    pub sending: Sending,
    pub room: [u8; 25],
    pub count: usize,
    ghost fits: { count ≤ 25 },
}
