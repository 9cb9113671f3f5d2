// A field and a parameter set.
ghost use Rattle.std.specs.Prelude.{◌≡◌, ◌≤◌};
ghost use Rattle.lab_sets.specs.Ranges.{field_most};
ghost use Rattle.lab_sets.specs.Setting.{field_set, value_set, mark_set, missing_set};

use crate::Field;
use blocks::Store;
use packets::Fields;
use params::{Params, is_id};

pub fn field_set(fields: &mut Fields, field: Field, n: u64)
    requires { n ≤ field_most field }
    ensures { fields.new ≡ field_set field n fields.old }
{
    match field {
        Field::Mode => fields.mode = n as u8,
        Field::Flags => fields.flags = n as u16,
        Field::Seconds => fields.seconds = n as u32,
        Field::Milliseconds => fields.milliseconds = n as u16,
        Field::Limit(Store::Priority) => fields.prioritylimit = n as u16,
        Field::Limit(Store::Ordinary) => fields.memorylimit = n as u32,
        Field::Remaining(Store::Priority) => fields.priorityremaining = n as u16,
        Field::Remaining(Store::Ordinary) => fields.memoryremaining = n as u32,
        Field::Poll => fields.poll = n as u16,
    }
}

// Stays beside `mark_set`: they write lists of two types, and one generic function would be longer than both.
#[tactic(auto, unfolding(crate::specs::Setting::value_set, params::specs::Rules::is_id))]
pub fn value_set(params: &mut Params, id: u8, v: i32)
    ensures { params.new ≡ value_set id v params.old }
{
    if is_id(id) {
        params.values[usize::from(id) - 1] = v;
    }
}

// Whether it was written since Initialise.
#[tactic(auto, unfolding(crate::specs::Setting::mark_set, params::specs::Rules::is_id))]
pub fn mark_set(params: &mut Params, id: u8, on: bool)
    ensures { params.new ≡ mark_set id on params.old }
{
    if is_id(id) {
        params.written[usize::from(id) - 1] = on;
    }
}

// A place of the kept list, whatever the marks say.
#[tactic(auto, unfolding(crate::specs::Setting::missing_set))]
pub fn missing_set(params: &mut Params, k: u8, n: u8)
    ensures { params.new ≡ missing_set k n params.old }
{
    if k < 8 {
        params.missing[usize::from(k)] = n;
    }
}
