// What stands between two lines, fresh from power.
ghost use Rattle.std.specs.Prelude.{◌≡◌};
ghost use Rattle.rules.specs.State.{fresh_pod};
ghost use Rattle.line_loop.specs.Ready.{Begun};

use items::Output;
use line_answers::{Bench, Program};
use line_calls::{Memory, right_sizes};
use rules::Pod;

// Power comes on: the tables, lent whole and from here on as slices, go to their starts.
fn powered(pod: &mut Pod, five: &mut [u16; 1088], six: &mut [u16; 1152], seven: &mut [u16; 1088])
    ensures { pod.old ≡ fresh_pod → pod.new ≡ fresh_pod }
{
    let _ = pod::power_on(pod, &mut five[..64], &mut six[..128], &mut seven[..64]);
}

fn power(pod: &mut Pod, memory: &mut Memory)
    ensures { pod.old ≡ fresh_pod → pod.new ≡ fresh_pod }
{
    powered(pod, &mut memory.five, &mut memory.six, &mut memory.seven);
}

// The start: a pod fresh from power, everything lent at its right size, and nothing gathered. Everything that the pod and the loop are
// lent lies here, but for the output's places; the loop lends of it what the calls ask for. Power comes on in the bench, so that its
// memory is not moved; the pod is lent as a copy, since two fields of a variable can't be lent to one call.
pub fn start<'a>(program: Program, out: &'a mut [u8; 65536]) -> Bench<'a>
    ensures { Begun program result }
{
    let mut bench = Bench {
        program,
        bytes: [0; 65536],
        words: [0; 65536],
        pod: commands::fresh_pod(),
        sizes: right_sizes(),
        memory: Memory {
            room: [0; 1284],
            priority: [0; 5120],
            ordinary: [0; 33792],
            five: [0; 1088],
            six: [0; 1152],
            seven: [0; 1088],
            load: [0; 64],
        },
        out: Output { out, at: 0 },
    };
    let mut pod = bench.pod;
    power(&mut pod, &mut bench.memory);
    bench.pod = pod;
    bench
}
