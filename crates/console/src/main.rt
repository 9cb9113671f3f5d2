// The console: a call of any port a line, and its answer.
#![tactic(auto)]

use line_loop::Program;

fn main(rt: HostRuntime) {
    line_loop::play(&rt, Program::Console);
}
