// The pod's calls, of all its ports: each promises its definition in `rules`, whatever arrives.
#![tactic(auto)]

pub use camera_side::{packet_out, pipe_byte, pipe_timeout, put, samples, taken};
pub use packet_port::{deadline, packet, power_on};
pub use word_port::{command_word, data_in, data_out, status_word};
