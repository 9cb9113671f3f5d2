// The table word port.
#![tactic(auto)]

mod status;
mod words;

pub use status::status_word;
pub use words::{command_word, data_in, data_out};
