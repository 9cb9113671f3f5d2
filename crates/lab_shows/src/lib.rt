// The line `V`: the state and the memory, shown.
#![tactic(auto)]

mod checks;
mod parts;
mod runs;
mod showing;

pub use showing::show;

// What is shown of the memory: the stores, the tables and the words of a load.
// Slices, and their length a clause of `show` and of `all_checks`: tables of any length up to 128 are shown, and arrays would ask more of
// callers.
#[derive(Clone, Copy)]
pub struct Lent<'a> {
    pub priority: &'a [u8],
    pub ordinary: &'a [u8],
    pub five: &'a [u16],
    pub six: &'a [u16],
    pub seven: &'a [u16],
    pub load: &'a [u16; 64],
}
