// What the program is lent, and its run.
use crate::Between;
use crate::turns::fresh;
use items::Output;
use pieces::run_emptied;

// The pieces of input, a line that is held, the output's places, and what stands between two lines: nothing yet.
// Three buffers and `run_emptied`, which every program has from `pieces`: one `play` for all would still be handed the state, and would
// have to require what `run_emptied` requires of it.
pub fn play(rt: &HostRuntime) {
    let mut piece = [0u8; 65536];
    let mut line = [0u8; 196606];
    let mut out = [0u8; 65536];
    let mut between = Between {
        way: fresh(),
        bytes: [0; 65536],
        out: Output {
            out: &mut out,
            at: 0,
        },
    };
    run_emptied(&mut piece, &mut line, &mut between, &mut rt.stdin());
}
