// The byte pipe.
#![tactic(auto, using(gates::proofs::Told::calling, gates::proofs::Fits::fitting), unfolding(rules::specs::Refusals::said, rules::specs::Calls::lone_call, rules::specs::Families::lone_of, rules::specs::Families::pipe_of))]

ghost use Rattle.std.specs.Prelude.{◌≡◌, [], ◌∷◌, IfOk};
ghost use Rattle.rows.specs.Rows.{out};
ghost use Rattle.rules.specs.Refusals.{done, said, state_row, asleep_row};
ghost use Rattle.rules.specs.Families.{byte, timeout, packet_out, taken, pipe};
ghost use Rattle.rules.specs.Calls.{sent_in, lone_rows, lone_call};
ghost use Rattle.gates.specs.Gates.{Gated};

use commands::judge;
use pipe::Sent;
use rules::{Pod, Refusal};

// The rows of every pipe call but the packet out.
#[tactic(auto, using(gates::proofs::Told::gating), unfolding(rules::specs::Refusals::refusal_number))]
fn pipe_gate(pod: &Pod) -> Result<(), Refusal>
    ensures { Gated result (state_row pod.now ∷ asleep_row pod.now ∷ []) }
{
    judge(pod)?;
    if !pod.initialised {
        return Err(Refusal::Asleep);
    }
    Ok(())
}

// The rows of the packet out, and its bytes where there are eight.
#[tactic(auto, using(gates::proofs::Told::gating), unfolding(rules::specs::Refusals::refusal_number))]
fn out_gate(pod: &Pod, bytes: &[u8]) -> Result<[u8; 8], Refusal>
    ensures gated { Gated result (lone_rows (pipe (packet_out bytes.now)) pod.now) }
    ensures eight { IfOk result (λ packet. packet ≡ bytes.now) }
{
    judge(pod)?;
    let packet = <[u8; 8]>::try_from(bytes).map_err(|_| Refusal::Eight)?;
    if !pod.initialised {
        return Err(Refusal::Asleep);
    }
    if pod.pipe.output.busy() {
        return Err(Refusal::Busy);
    }
    Ok(packet)
}

// The four calls have a step and a half of the pipe each, two lines: one function that takes the step would be called by as many.

// A byte from the camera; the eighth sends all eight.
pub fn pipe_byte(pod: &mut Pod, b: u8) -> Result<Sent, Refusal>
    ensures { out (said (λ _. done) result) pod.new (sent_in result) ≡ lone_call (pipe (byte b)) pod.old }
{
    pipe_gate(pod)?;
    let piped = pod.pipe.input.byte(b);
    pod.pipe.input = piped.input;
    Ok(piped.sent)
}

// What is gathered goes as a short packet, and what is in hand is dropped.
pub fn pipe_timeout(pod: &mut Pod) -> Result<Sent, Refusal>
    ensures { out (said (λ _. done) result) pod.new (sent_in result) ≡ lone_call (pipe timeout) pod.old }
{
    pipe_gate(pod)?;
    let piped = pod.pipe.input.timeout();
    pod.pipe.input = piped.input;
    pod.pipe.output = pod.pipe.output.timeout();
    Ok(piped.sent)
}

// A packet of eight from the aircraft for the camera: its first byte is shown.
pub fn packet_out(pod: &mut Pod, bytes: &[u8]) -> Result<Sent, Refusal>
    ensures { out (said (λ _. done) result) pod.new (sent_in result) ≡ lone_call (pipe (packet_out bytes.now)) pod.old }
{
    let packet = out_gate(pod, bytes)?;
    let handed = pod.pipe.output.packet(packet);
    pod.pipe.output = handed.output;
    Ok(handed.sent)
}

// The camera took the byte being shown: the next is shown, where there is one.
pub fn taken(pod: &mut Pod) -> Result<Sent, Refusal>
    ensures { out (said (λ _. done) result) pod.new (sent_in result) ≡ lone_call (pipe taken) pod.old }
{
    pipe_gate(pod)?;
    let handed = pod.pipe.output.taken();
    pod.pipe.output = handed.output;
    Ok(handed.sent)
}
