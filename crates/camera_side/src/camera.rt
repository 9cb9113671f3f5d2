// The camera's blocks.
ghost use Rattle.std.specs.Prelude.{◌≡◌};
ghost use Rattle.rows.specs.Rows.{out};
ghost use Rattle.rules.specs.Refusals.{done, said};
ghost use Rattle.rules.specs.Calls.{put_rows, put_call};
ghost use Rattle.gates.specs.Gates.{Gated};

use blocks::Store;
use commands::{judge, ring_of, set_ring};
use rules::{Pod, Refusal};

#[tactic(auto, using(gates::proofs::Told::gating), unfolding(rules::specs::Refusals::refusal_number))]
fn put_gate(pod: &Pod, which: Store, store: &[u8], block: &[u8]) -> Result<(), Refusal>
    ensures { Gated result (put_rows which block.now store.now pod.now) }
{
    if !blocks::sized(which, store) {
        return Err(Refusal::Size);
    }
    judge(pod)?;
    if block.len() != blocks::BLOCK {
        return Err(Refusal::Count);
    }
    if !pod.initialised {
        return Err(Refusal::Asleep);
    }
    if ring_of(pod, which).waiting >= blocks::capacity(which) {
        return Err(Refusal::Full);
    }
    Ok(())
}

// A block goes behind the others of its store.
#[tactic(auto, using(gates::proofs::Told::calling, gates::proofs::Fits::fitting), unfolding(rules::specs::Refusals::said, rules::specs::Calls::put_call))]
pub fn put(pod: &mut Pod, which: Store, store: &mut [u8], block: &[u8]) -> Result<(), Refusal>
    ensures { out (said (λ _. done) result) pod.new store.new ≡ put_call which block.now store.old pod.old }
{
    put_gate(pod, which, store, block)?;
    let more = blocks::put(blocks::capacity(which), ring_of(pod, which), store, block);
    set_ring(pod, which, more);
    Ok(())
}
