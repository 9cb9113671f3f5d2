// What a change sets in the pod and in the words of a load.
ghost use Rattle.std.specs.Prelude.{◌≡◌, true, IfSome};
ghost use Rattle.lab_sets.specs.Ranges.{in_range};
ghost use Rattle.lab_sets.specs.Setting.{is_part, part_after, load_after};

use crate::Change;
use crate::cells::cell_set;
use crate::fields::value_set;
use rules::Pod;

// What a change sets, and whether it is a part of the state: a thing is none, and a line that asks for nothing sets nothing. A transfer
// begins with a load's words at 0.
#[tactic(auto, unfolding(crate::specs::Ranges::in_range, crate::specs::Setting::part_set, crate::specs::Setting::load_set))]
pub fn set(change: Option<Change>, pod: &mut Pod, load: &mut [u16; 64]) -> bool
    requires { IfSome change (λ c. in_range c ≡ true) }
    ensures value { result ≡ is_part change }
    ensures part { pod.new ≡ part_after change pod.old }
    ensures words { load.new ≡ load_after change load.old }
{
    let Some(change) = change else {
        return false;
    };
    match change {
        Change::Cell(cell, n) => cell_set(pod, cell, n),
        Change::Value(id, v) => value_set(&mut pod.params, id, v),
        Change::Exchange(exchange) => pod.exchange = exchange,
        Change::Address(given) => pod.words.given = given,
        Change::Transfer(transfer) => {
            *load = [0; 64];
            pod.words.transfer = transfer;
        }
        Change::Thing(_, _) => return false,
    }
    true
}
