// Whether the state is within its bounds.
ghost use Rattle.std.specs.Prelude.{◌≡◌};
ghost use Rattle.blocks.specs.Stores.{capacity_of, sound_ring};
ghost use Rattle.rules.specs.State.{ring_of, is_closed, restful, sound_pod};
ghost use Rattle.commands.specs.Does.{Judged};

use crate::changes::ring_of;
use blocks::Store;
use rules::{Exchange, Pod, Refusal};

fn closed(exchange: Exchange) -> bool
    ensures { result ≡ is_closed exchange }
{
    matches!(exchange, Exchange::Closed)
}

// While not initialised, no exchange and no transfer is open.
#[tactic(auto, unfolding(rules::specs::State::restful))]
fn restful(pod: &Pod) -> bool
    ensures { result ≡ restful pod.now }
{
    pod.initialised || closed(pod.exchange) & tables::idle(pod.words.transfer)
}

fn ring_sound(pod: &Pod, which: Store) -> bool
    ensures { result ≡ sound_ring (capacity_of which) (ring_of which pod.now) }
{
    blocks::sound(blocks::capacity(which), ring_of(pod, which))
}

// The bounds of each part, one after the other: where one is broken, no other is looked at.
#[tactic(auto, unfolding(rules::specs::State::sound_pod))]
pub fn sound(pod: &Pod) -> bool
    ensures { result ≡ sound_pod pod.now }
{
    ring_sound(pod, Store::Priority)
        && ring_sound(pod, Store::Ordinary)
        && params::sound(&pod.params)
        && packets::bounded(pod.fields)
        && pod.pipe.sound()
        && tables::sound(&pod.words)
        && restful(pod)
}

// Row 3: a state out of its bounds is refused.
pub fn judge(pod: &Pod) -> Result<(), Refusal>
    ensures { Judged result pod.now }
{
    if sound(pod) {
        Ok(())
    } else {
        Err(Refusal::State)
    }
}
