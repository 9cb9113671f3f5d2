// A part that a number says, set.
ghost use Rattle.std.specs.Prelude.{◌≡◌, ◌≤◌};
ghost use Rattle.lab_sets.specs.Ranges.{cell_most};
ghost use Rattle.lab_sets.specs.Setting.{cell_set};

use crate::Cell;
use crate::fields::{field_set, mark_set, missing_set};
use blocks::Store;
use rules::Pod;
use tables::Table;

// The bytes that are gathered, and those in hand, are bytes of 0.
// A mark comes as a number and is on where that is 1, as `cell_set` has it.
#[tactic(auto, unfolding(crate::specs::Setting::cell_set))]
pub fn cell_set(pod: &mut Pod, cell: Cell, n: u64)
    requires { n ≤ cell_most cell }
    ensures { pod.new ≡ cell_set cell n pod.old }
{
    match cell {
        Cell::Initialised => pod.initialised = n == 1,
        Cell::Field(field) => field_set(&mut pod.fields, field, n),
        Cell::Written(id) => mark_set(&mut pod.params, id, n == 1),
        Cell::Missing(k) => missing_set(&mut pod.params, k, n as u8),
        Cell::Error => pod.words.error = n == 1,
        Cell::Place(Table::Five) => pod.words.places.five = n as u8,
        Cell::Place(Table::Six) => pod.words.places.six = n as u8,
        Cell::Place(Table::Seven) => pod.words.places.seven = n as u8,
        Cell::Oldest(Store::Priority) => pod.priority.oldest = n as usize,
        Cell::Oldest(Store::Ordinary) => pod.ordinary.oldest = n as usize,
        Cell::Waiting(Store::Priority) => pod.priority.waiting = n as usize,
        Cell::Waiting(Store::Ordinary) => pod.ordinary.waiting = n as usize,
        Cell::Gathered => {
            pod.pipe.input.bytes = [0; 8];
            pod.pipe.input.gathered = n as usize;
        }
        Cell::Timeouts => pod.pipe.input.timeouts = n as u8,
        Cell::Out => {
            pod.pipe.output.bytes = [0; 8];
            pod.pipe.output.hand = n as u8;
        }
        Cell::Outtimeouts => pod.pipe.output.timeouts = n as u8,
    }
}
