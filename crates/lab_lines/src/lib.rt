// The lines that `lab` has besides the console's: `X` sets a part of the state, `L` lends the next call a thing at another size. What
// they ask for is read here.
#![tactic(auto)]

mod asking;
mod ranges;
mod transfers;

pub use asking::change;
