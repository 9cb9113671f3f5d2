// When to send again.
ghost use Rattle.std.specs.Prelude.{◌≡◌, List, ℕ, MatchOption, None};
ghost use Rattle.airframe.specs.Reading.{meaning_said};
ghost use Rattle.airframe.specs.Sending.{sent, silence, answer, as_no_reply, reply_said, step_left, fewer, outcome, heard_of, heard_said};

use crate::{Heard, Left, Meaning, Refusal, Sending, Step};

// Whether an answer counts as none: error 0x01, or a wrong answer.
// The error is the answer's byte, which may be any: `as_no_reply` tests it for 0x01.
#[tactic(auto, unfolding(crate::specs::Reading::meaning_said, crate::specs::Sending::as_no_reply))]
fn as_none(read: Result<Meaning, Refusal>) -> bool
    ensures { (a : List ℕ) → result ≡ as_no_reply (meaning_said read a) }
{
    matches!(read, Err(_) | Ok(Meaning::Error(0x01)))
}

// Nothing is on its way: nothing is read, and nothing changes.
#[tactic(auto, unfolding(crate::specs::Sending::heard_said))]
fn idle() -> Heard
    ensures { (a : List ℕ) → heard_said result a ≡ outcome Step.Idle None Sending.Over }
{
    Heard {
        step: Step::Idle,
        reply: None,
        sending: Sending::Over,
    }
}

impl Left {
    // After one more send. None: there was none left.
    fn fewer(self) -> Option<Left>
        ensures { MatchOption result (self ≡ Left.Nought) (λ l. (step_left self ≡ Step.Again) × ((code : ℕ) → fewer code self ≡ Sending.Awaiting code l)) }
    {
        match self {
            Left::Nought => None,
            Left::One => Some(Left::Nought),
            Left::Two => Some(Left::One),
            Left::Three => Some(Left::Two),
        }
    }
}

// A send is used up.
#[tactic(auto, unfolding(crate::specs::Sending::heard_said))]
fn used(code: u8, left: Left, reply: Option<Result<Meaning, Refusal>>) -> Heard
    ensures { (a : List ℕ) → heard_said result a ≡ outcome (step_left left) (reply_said reply a) (fewer code left) }
{
    let (step, sending) = match left.fewer() {
        Some(fewer) => (Step::Again, Sending::Awaiting(code, fewer)),
        None => (Step::Lost, Sending::Over),
    };
    Heard {
        step,
        reply,
        sending,
    }
}

impl Sending {
    // A command was sent for the first time.
    // The code is any byte, as `sent` has it: one that is no code is held too.
    #[tactic(auto, unfolding(crate::specs::Sending::sent))]
    pub fn sent(code: u8) -> Sending
        ensures { result ≡ sent code }
    {
        Sending::Awaiting(code, Left::Three)
    }

    // No reply came.
    #[tactic(auto, unfolding(crate::specs::Sending::heard_of, crate::specs::Sending::unanswered))]
    pub fn silence(self) -> Heard
        ensures { (a : List ℕ) → heard_said result a ≡ heard_of self silence }
    {
        match self {
            Sending::Over => idle(),
            Sending::Awaiting(code, left) => used(code, left, None),
        }
    }

    // An answer came.
    #[tactic(auto, unfolding(crate::specs::Sending::heard_of, crate::specs::Sending::unanswered, crate::specs::Sending::heard_said))]
    pub fn reply(self, bytes: &[u8]) -> Heard
        ensures { heard_said result bytes.now ≡ heard_of self (answer bytes.now) }
    {
        match self {
            Sending::Over => idle(),
            Sending::Awaiting(code, left) => {
                let read = crate::reading::read(code, bytes);
                if as_none(read) {
                    return used(code, left, Some(read));
                }
                Heard {
                    step: Step::Ended,
                    reply: Some(read),
                    sending: Sending::Over,
                }
            }
        }
    }
}
