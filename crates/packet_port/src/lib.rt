// The aircraft's side: packets, the deadline of an exchange, and power on.
#![tactic(auto)]

mod port;
mod power;

pub use port::packet;
pub use power::{deadline, power_on};
