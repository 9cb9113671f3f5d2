// What an acknowledgement does to the pod: it closes the exchange, and the block that was shown goes.
ghost use Rattle.std.specs.Prelude.{◌≡◌, true, ◌-◌, ◌<◌, eqb, ◌||◌, ◌⊎◌, MatchOption};
ghost use Rattle.packets.specs.Codes.{code_number};
ghost use Rattle.blocks.specs.Stores.{capacity_of, sound_ring};
ghost use Rattle.rules.specs.declared.Exchange.TheVariants.{Closed};
ghost use Rattle.rules.specs.State.{ring_of, remaining_of, with_remaining, sound_pod};
ghost use Rattle.rules.specs.Obey.{exchange_code, drop_from, settled, acknowledged_of};

use crate::changes::{remaining_of, ring_of, set_ring, shut};
use blocks::Store;
use packets::{Code, Fields};
use rules::{Exchange, Pod};

// The code of the command whose exchange is open.
// By a match, at its one place: a `From` between the two would have the same arms.
#[tactic(auto, unfolding(packets::specs::Codes::code_number, packets::specs::Commands::command_row, packets::specs::Commands::command_place))]
fn open(exchange: Exchange) -> Option<Code>
    ensures { MatchOption result (exchange ≡ Closed) (λ code. code_number code ≡ exchange_code exchange) }
{
    match exchange {
        Exchange::Closed => None,
        Exchange::Status => Some(Code::Status),
        Exchange::Read => Some(Code::Read),
        Exchange::Receive(Store::Priority) => Some(Code::Priority),
        Exchange::Receive(Store::Ordinary) => Some(Code::Data),
    }
}

// An arm for each store's own field, as `with_remaining` has it.
fn one_less(fields: &mut Fields, which: Store)
    requires { 0 < remaining_of which fields.old }
    ensures { fields.new ≡ with_remaining which (remaining_of which fields.old - 1) fields.old }
{
    match which {
        Store::Priority => fields.priorityremaining -= 1,
        Store::Ordinary => fields.memoryremaining -= 1,
    }
}

// The oldest block goes, and one fewer remains; were there none of either, neither would change.
#[tactic(auto, unfolding(rules::specs::Obey::drop_from))]
fn drop_from(pod: &mut Pod, which: Store)
    requires { sound_ring (capacity_of which) (ring_of which pod.old) ≡ true }
    ensures { pod.new ≡ drop_from which pod.old }
{
    let ring = ring_of(pod, which);
    if ring.waiting == 0 || remaining_of(&pod.fields, which) == 0 {
        return;
    }
    one_less(&mut pod.fields, which);
    set_ring(pod, which, blocks::dropped(blocks::capacity(which), ring));
}

// A receive's acknowledgement takes the block.
#[tactic(auto, using(rules::proofs::Inside::ring_in, rules::proofs::Inside::pod_in), unfolding(rules::specs::Obey::settled))]
fn settle(pod: &mut Pod)
    requires { sound_pod pod.old ≡ true }
    ensures { pod.new ≡ settled pod.old.exchange pod.old }
{
    if let Exchange::Receive(which) = pod.exchange {
        drop_from(pod, which);
    }
}

// Whether an acknowledgement's first byte closes this exchange as its own code would: 0x90 counts as the code of whichever is open.
fn closes(first: u8, exchange: Exchange) -> bool
    ensures { exchange ≡ Closed ⊎ (result ≡ (eqb first (exchange_code exchange) || eqb first 0x90)) }
{
    match open(exchange) {
        Some(code) => first == u8::from(code) || first == 0x90,
        None => false,
    }
}

// Only the 0x01 form takes what was shown; either form closes the exchange.
#[tactic(auto, unfolding(rules::specs::Obey::acknowledged_of, rules::specs::Obey::matches, rules::specs::Obey::settled))]
pub fn acknowledged(pod: &mut Pod, first: u8, one: bool)
    requires { sound_pod pod.old ≡ true }
    ensures { pod.new ≡ acknowledged_of first one pod.old }
{
    if one && closes(first, pod.exchange) {
        settle(pod);
    }
    shut(pod);
}
