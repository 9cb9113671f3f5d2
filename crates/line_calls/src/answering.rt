// A line answered: its call is lent the memory at the sizes that are asked for.
ghost use Rattle.std.specs.Prelude.{◌≡◌, ◌+◌, ◌≤◌, length};
ghost use Rattle.line_calls.specs.Calls.{heard_line};
ghost use Rattle.line_calls.specs.Memory.{memory, right_sizes, SizesFit, Within};
ghost use Rattle.line_calls.specs.Promise.{LentAnswered};

use crate::calling::reply;
use crate::{Memory, Sizes};
use items::Output;
use lines::Line;
use rules::Pod;

// The sizes that the calls ask for.
pub fn right_sizes() -> Sizes
    ensures { result ≡ right_sizes }
{
    Sizes {
        room: 260,
        priority: 4096,
        ordinary: 32768,
        five: 64,
        six: 128,
        seven: 64,
    }
}

// A line's call and its answer, each thing lent from its start, so much of it as its size says. A line that calls nothing is answered
// with `?`.
pub fn answer(
    line: Option<Line>,
    pod: &mut Pod,
    sizes: Sizes,
    bytes: &[u8],
    words: &[u16],
    room: &mut [u8],
    priority: &mut [u8],
    ordinary: &mut [u8],
    five: &mut [u16],
    six: &mut [u16],
    seven: &mut [u16],
    load: &mut [u16; 64],
    out: &mut Output<'_>,
)
    requires sizes_fit { SizesFit sizes (memory room.old priority.old ordinary.old five.old six.old seven.old load.old) }
    requires at_in_bounds { out.old.at + 784 ≤ length out.old.out.now }
    ensures { LentAnswered (heard_line line bytes.now words.now) pod.old pod.new sizes (memory room.old priority.old ordinary.old five.old six.old seven.old load.old) (memory room.new priority.new ordinary.new five.new six.new seven.new load.new) out.old out.new }
{
    let Some(line) = line else {
        return out.bare_line(b'?');
    };
    reply(
        line,
        pod,
        bytes,
        words,
        &mut room[..sizes.room],
        &mut priority[..sizes.priority],
        &mut ordinary[..sizes.ordinary],
        &mut five[..sizes.five],
        &mut six[..sizes.six],
        &mut seven[..sizes.seven],
        load,
        out,
    );
}

// The same of a program's memory.
// `Within` is a clause and no invariant of `Sizes`: `size_set` of lab_calls gives a size any number, since `in_range` holds of each.
// What is lent stands together in `Bench` of line_answers, a crate above; here `LentAnswered` says of each what becomes of it.
pub fn answer_in(
    line: Option<Line>,
    pod: &mut Pod,
    sizes: Sizes,
    bytes: &[u8],
    words: &[u16],
    memory: &mut Memory,
    out: &mut Output<'_>,
)
    requires within { Within sizes }
    requires at_in_bounds { out.old.at + 784 ≤ length out.old.out.now }
    ensures { LentAnswered (heard_line line bytes.now words.now) pod.old pod.new sizes memory.old memory.new out.old out.new }
{
    parted(
        line,
        pod,
        sizes,
        bytes,
        words,
        &mut memory.room,
        &mut memory.priority,
        &mut memory.ordinary,
        &mut memory.five,
        &mut memory.six,
        &mut memory.seven,
        &mut memory.load,
        out,
    );
}

// The memory's arrays are lent whole, and are slices from here on: a field that lies behind a reference, lent as a slice, would come back
// as any list.
fn parted(
    line: Option<Line>,
    pod: &mut Pod,
    sizes: Sizes,
    bytes: &[u8],
    words: &[u16],
    room: &mut [u8; 1284],
    priority: &mut [u8; 5120],
    ordinary: &mut [u8; 33792],
    five: &mut [u16; 1088],
    six: &mut [u16; 1152],
    seven: &mut [u16; 1088],
    load: &mut [u16; 64],
    out: &mut Output<'_>,
)
    requires within { Within sizes }
    requires at_in_bounds { out.old.at + 784 ≤ length out.old.out.now }
    ensures { LentAnswered (heard_line line bytes.now words.now) pod.old pod.new sizes (memory room.old priority.old ordinary.old five.old six.old seven.old load.old) (memory room.new priority.new ordinary.new five.new six.new seven.new load.new) out.old out.new }
{
    answer(
        line, pod, sizes, bytes, words, room, priority, ordinary, five, six, seven, load, out,
    );
}
