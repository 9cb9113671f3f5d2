// The pod that a call is lent: its bounds, and what a command and an acknowledgement do to it. That it is sound is asked of what comes
// after row 3, and is no invariant of the type: callers hand in any state.
#![tactic(auto)]

mod acknowledge;
mod bounds;
mod changes;
mod fresh;
mod obeying;

pub use acknowledge::acknowledged;
pub use bounds::{judge, sound};
pub use changes::{ring_of, set_ring, shut};
pub use fresh::fresh_pod;
pub use obeying::{obey, obey_pod, report};
