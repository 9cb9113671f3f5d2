// The lines that begin with `R`: what an answer means, and what is next.
ghost use Rattle.std.specs.Prelude.{◌+◌, ◌≤◌, length};
ghost use Rattle.items.specs.Output.{Written};
ghost use Rattle.airframe.specs.Sending.{reply_said, heard_said};
ghost use Rattle.aircraft_answers.specs.Words.{read_text, step_text, outcome_text};

use crate::meanings::put_meaning;
use airframe::{Heard, Meaning, Refusal, Step};
use items::Output;

// The answer stands beside what it was read as, here and below, as `reply_said` and `heard_said` have the two.
#[tactic(auto, using(crate::proofs::Texts::unwritten))]
fn put_reply(out: &mut Output<'_>, reply: Option<Result<Meaning, Refusal>>, answer: &[u8])
    requires { out.old.at + 773 ≤ length out.old.out.now }
    ensures { Written (read_text (reply_said reply answer.now)) 773 out.old out.new }
{
    match reply {
        None => {}
        Some(read) => put_meaning(out, read, answer),
    }
}

#[tactic(auto, using(crate::proofs::Texts::unwritten))]
fn put_step(out: &mut Output<'_>, step: Step)
    requires { out.old.at + 6 ≤ length out.old.out.now }
    ensures { Written (step_text step) 6 out.old out.new }
{
    match step {
        Step::Idle => out.append(b" -"),
        Step::Ended => {}
        Step::Again => out.append(b" again"),
        Step::Lost => out.append(b" lost"),
    }
}

pub fn put_outcome(out: &mut Output<'_>, heard: Heard, answer: &[u8])
    requires { out.old.at + 781 ≤ length out.old.out.now }
    ensures { Written (outcome_text (heard_said heard answer.now)) 781 out.old out.new }
{
    out.append(b"R");
    put_reply(out, heard.reply, answer);
    put_step(out, heard.step);
    out.append(b"\n");
}
