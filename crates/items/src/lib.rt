// The items of a text: bytes and words read and printed, and the lines that are made of them.
#![tactic(auto)]

mod output;
mod parts;
mod printing;
mod reading;

pub use output::Output;
pub use parts::{append, front};
pub use reading::{byte_item, bytes_in, word_item, words_in};
