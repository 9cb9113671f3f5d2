// The sample sets of a survey.
ghost use Rattle.std.specs.Prelude.{◌≡◌};
ghost use Rattle.rows.specs.Rows.{out};
ghost use Rattle.rules.specs.Refusals.{done, said};
ghost use Rattle.rules.specs.Calls.{framed_in, samples_rows, samples_call};
ghost use Rattle.gates.specs.Gates.{Gated};

use commands::judge;
use frames::Frames;
use rules::{Pod, Refusal};

#[tactic(auto, using(gates::proofs::Told::gating), unfolding(rules::specs::Refusals::refusal_number))]
fn samples_gate(pod: &Pod, check: u8, set: &[u16]) -> Result<(), Refusal>
    ensures { Gated result (samples_rows check set.now pod.now) }
{
    judge(pod)?;
    if set.len() != frames::SET {
        return Err(Refusal::Count);
    }
    if !frames::bounded(set) || check > frames::CHECK {
        return Err(Refusal::Over);
    }
    Ok(())
}

// A sample set with a self-check number gives the two frames, and changes nothing.
#[tactic(auto, using(gates::proofs::Told::calling, gates::proofs::Fits::fitting), unfolding(rules::specs::Refusals::said, rules::specs::Calls::samples_call))]
pub fn samples(pod: &Pod, check: u8, set: &[u16]) -> Result<Frames, Refusal>
    ensures { out (said (λ _. done) result) pod.now (framed_in result) ≡ samples_call check set.now pod.now }
{
    samples_gate(pod, check, set)?;
    Ok(frames::two_frames(set, pod.pipe, pod.initialised, check))
}
