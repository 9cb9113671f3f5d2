// A line of `X` or `L`.
ghost use Rattle.std.specs.Prelude.{◌≡◌, true, ◌+◌, ◌≤◌, IfSome, length};
ghost use Rattle.items.specs.Printed.{bare_line};
ghost use Rattle.items.specs.Output.{Written};
ghost use Rattle.lab_sets.specs.Ranges.{in_range};
ghost use Rattle.lab_sets.specs.Setting.{part_after, load_after};
ghost use Rattle.lab_calls.specs.Own.{size_set, sizes_set, letter_of};

use blocks::Store;
use items::Output;
use lab_sets::{Change, Thing, set};
use line_calls::Sizes;
use rules::Pod;
use tables::Table;

fn size_set(sizes: &mut Sizes, thing: Thing, n: usize)
    ensures { sizes.new ≡ size_set thing n sizes.old }
{
    match thing {
        Thing::Room => sizes.room = n,
        Thing::Store(Store::Priority) => sizes.priority = n,
        Thing::Store(Store::Ordinary) => sizes.ordinary = n,
        Thing::Table(Table::Five) => sizes.five = n,
        Thing::Table(Table::Six) => sizes.six = n,
        Thing::Table(Table::Seven) => sizes.seven = n,
    }
}

// What it asks for is set, and its letter printed.
// `Bench` of line_answers, a crate above, holds what is handed in here; of the memory only the words of the load can change.
#[tactic(auto, unfolding(crate::specs::Own::sizes_set, crate::specs::Own::letter_of))]
pub fn asked(
    change: Option<Change>,
    pod: &mut Pod,
    sizes: &mut Sizes,
    load: &mut [u16; 64],
    out: &mut Output<'_>,
)
    requires in_range { IfSome change (λ c. in_range c ≡ true) }
    requires room { out.old.at + 1200 ≤ length out.old.out.now }
    ensures part { pod.new ≡ part_after change pod.old }
    ensures sizes { sizes.new ≡ sizes_set change sizes.old }
    ensures words { load.new ≡ load_after change load.old }
    ensures letter { Written (bare_line (letter_of change)) 2 out.old out.new }
{
    set(change, pod, load);
    let Some(change) = change else {
        return out.bare_line(b'?');
    };
    match change {
        Change::Thing(thing, n) => {
            size_set(sizes, thing, n);
            out.bare_line(b'L');
        }
        Change::Cell(..)
        | Change::Value(..)
        | Change::Exchange(_)
        | Change::Address(_)
        | Change::Transfer(_) => out.bare_line(b'X'),
    }
}
