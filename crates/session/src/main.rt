// A session: a packet a line, and its answer.
#![tactic(auto)]

use line_loop::Program;

fn main(rt: HostRuntime) {
    line_loop::play(&rt, Program::Session);
}
