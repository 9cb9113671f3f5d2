// The state with one part changed.
ghost use Rattle.std.specs.Prelude.{◌≡◌};
ghost use Rattle.rules.specs.State.{with_ring, ring_of, remaining_of};
ghost use Rattle.rules.specs.Obey.{shut};

use blocks::{Ring, Store};
use packets::Fields;
use rules::{Exchange, Pod};

// An open exchange is closed; its block is kept.
pub fn shut(pod: &mut Pod)
    ensures { pod.new ≡ shut pod.old }
{
    pod.exchange = Exchange::Closed;
}

// A store has a field for each of its things, which the statements name: here and below an arm for each.
pub fn ring_of(pod: &Pod, which: Store) -> Ring
    ensures { result ≡ ring_of which pod.now }
{
    match which {
        Store::Priority => pod.priority,
        Store::Ordinary => pod.ordinary,
    }
}

pub fn set_ring(pod: &mut Pod, which: Store, ring: Ring)
    ensures { pod.new ≡ with_ring which ring pod.old }
{
    match which {
        Store::Priority => pod.priority = ring,
        Store::Ordinary => pod.ordinary = ring,
    }
}

// What a store may still be asked for.
pub fn remaining_of(fields: &Fields, which: Store) -> u32
    ensures { result ≡ remaining_of which fields.now }
{
    match which {
        Store::Priority => u32::from(fields.priorityremaining),
        Store::Ordinary => fields.memoryremaining,
    }
}
