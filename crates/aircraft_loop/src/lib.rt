// The reading loop of the program aircraft: a line in, a line out.
#![tactic(auto)]

mod playing;
mod turns;

use aircraft_answers::Underway;
use items::Output;
pub use playing::play;

// What stands between two lines: what is on its way, the bytes of an answer, and the output.
#[derive(Drop)]
pub struct Between<'a> {
    pub way: Underway,
    pub bytes: [u8; 65536],
    pub out: Output<'a>,
}
