// The reading loop of the programs: a line in, a line out.
#![tactic(auto)]

mod playing;
mod turns;

pub use line_answers::Program;
pub use playing::play;
