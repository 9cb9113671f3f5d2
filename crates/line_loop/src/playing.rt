// What a program is lent, and its run.
use crate::Program;
use crate::turns::start;
use pieces::run_emptied;

// The pieces of input, a line that is held, the output's places, and what stands between two lines.
// Three buffers and `run_emptied`, which every program has from `pieces`: one `play` for all would still be handed the state, and would
// have to require what `run_emptied` requires of it.
pub fn play(rt: &HostRuntime, program: Program) {
    let mut piece = [0u8; 65536];
    let mut line = [0u8; 196606];
    let mut out = [0u8; 65536];
    let mut bench = start(program, &mut out);
    run_emptied(&mut piece, &mut line, &mut bench, &mut rt.stdin());
}
