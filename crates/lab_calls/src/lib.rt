// The lines that `lab` has besides the console's, answered: `X` sets a part of the state, `L` lends the next call a thing at another
// size, `V` shows the state and the memory.
#![tactic(auto)]

mod asking;
mod own;

pub use own::{is_own, own_line};
