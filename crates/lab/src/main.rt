// The lab: every line of the console and three more, `X`, `L` and `V`, so that any state and any size can be handed in and seen.
#![tactic(auto)]

use line_loop::Program;

fn main(rt: HostRuntime) {
    line_loop::play(&rt, Program::Lab);
}
