// The lines of its own.
ghost use Rattle.std.specs.Prelude.{◌≡◌, [], ◌+◌, ◌≤◌, length};
ghost use Rattle.line_calls.specs.Memory.{memory};
ghost use Rattle.lab_calls.specs.Own.{is_show, is_own, OwnAnswered};

use crate::asking::asked;
use items::Output;
use lab_lines::change;
use lab_shows::{Lent, show};
use line_calls::Sizes;
use rules::Pod;

#[tactic(auto, unfolding(crate::specs::Own::is_show))]
fn is_show(text: &[u8]) -> bool
    ensures { result ≡ is_show text.now }
{
    matches!(text, [b'V'])
}

// Whether a line is none of the console's: `X`, `L` or `V`.
#[tactic(auto, unfolding(crate::specs::Own::is_own, crate::specs::Own::is_show))]
pub fn is_own(text: &[u8]) -> bool
    ensures { result ≡ is_own text.now }
{
    matches!(text, [b'X' | b'L', ..]) | is_show(text)
}

// Such a line, answered. The memory is shown at its right sizes, and only the words of a load may change.
// `Bench` of line_answers, a crate above, holds what is handed in here; `OwnAnswered` says of each what becomes of it.
pub fn own_line(
    text: &[u8],
    pod: &mut Pod,
    sizes: &mut Sizes,
    priority: &[u8],
    ordinary: &[u8],
    five: &[u16],
    six: &[u16],
    seven: &[u16],
    load: &mut [u16; 64],
    out: &mut Output<'_>,
)
    requires in_bounds { (4096 ≤ length priority.now) × (32768 ≤ length ordinary.now) × (64 ≤ length five.now) × (128 ≤ length six.now) × (64 ≤ length seven.now) }
    requires at_in_bounds { out.old.at + 1200 ≤ length out.old.out.now }
    ensures { OwnAnswered text.now pod.old pod.new sizes.old sizes.new (memory [] priority.now ordinary.now five.now six.now seven.now load.old) (memory [] priority.now ordinary.now five.now six.now seven.now load.new) out.old out.new }
{
    if is_show(text) {
        let lent = Lent {
            priority: &priority[..4096],
            ordinary: &ordinary[..32768],
            five: &five[..64],
            six: &six[..128],
            seven: &seven[..64],
            load,
        };
        return show(pod, &lent, out);
    }
    asked(change(text), pod, sizes, load, out);
}
