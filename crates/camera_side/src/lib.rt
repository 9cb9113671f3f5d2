// The camera's side: blocks, sample sets and the byte pipe.
#![tactic(auto)]

mod bytes;
mod camera;
mod survey;

pub use bytes::{packet_out, pipe_byte, pipe_timeout, taken};
pub use camera::put;
pub use survey::samples;
