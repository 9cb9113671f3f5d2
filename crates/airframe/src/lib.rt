// The aircraft's half of the packet port: commands and acknowledgements built, answers read, and when to send again.
#![tactic(auto)]

ghost use Rattle.std.specs.Prelude.{◌≡◌};
ghost use Rattle.airframe.specs.declared.Refusal.TheVariants.{Wrong};
ghost use Rattle.airframe.specs.Building.{refusal_number};

mod building;
mod nine;
mod reading;
mod steps;

pub use building::{acknowledge, build};
pub use nine::fields_given;
use packets::UnknownCode;
pub use reading::{block, ids, read};

// An acknowledgement by its form: the 0x01 form, or the 0x09 form with its error byte. No Option: the statements name both forms.
#[derive(Clone, Copy)]
pub enum Form {
    Taken,
    Failed(u8),
}

// Why nothing is built or read.
#[derive(Clone, Copy, Debug, PartialEq, Eq)]
pub enum Refusal {
    Field,
    Wrong,
    Room,
}

// The refusals' numbers.
impl From<Refusal> for u8 {
    ghost from_gives = { λ why n. n ≡ refusal_number why };

    #[tactic(auto, unfolding(crate::specs::Building::refusal_number))]
    fn from(why: Refusal) -> u8 {
        match why {
            Refusal::Field => 20,
            Refusal::Wrong => 23,
            Refusal::Room => 24,
        }
    }
}

// An answer to a byte that is no code is wrong.
impl From<UnknownCode> for Refusal {
    ghost from_gives = { λ _ why. why ≡ Wrong };

    fn from(_: UnknownCode) -> Refusal {
        Refusal::Wrong
    }
}

// What a status answer shows, but for the ids, which are a part of the answer.
#[derive(Clone, Copy)]
pub struct Shown {
    pub mode: u8,
    pub flags: u16,
    pub priority: u16,
    pub ordinary: u32,
    pub request: u8,
}

// What an answer means. A value has its parameter's id. The ids of a status and the bytes of a block are parts of the answer.
// They stand beside it, in the answer, as `meaning_said` has the two. An error is the answer's byte, which may be any.
#[derive(Clone, Copy)]
pub enum Meaning {
    Done,
    Error(u8),
    State(Shown),
    Value(u8, i32),
    Block,
}

// How often what is on its way may still be sent. No number: the statements name each, and there is no fourth.
#[derive(Clone, Copy)]
pub enum Left {
    Nought,
    One,
    Two,
    Three,
}

// Nothing on its way, or the code of the command that awaits its answer. No Option: the C library's state and the statements name both.
// The code is any byte that the state holds, one that is no code too.
#[derive(Clone, Copy)]
pub enum Sending {
    Over,
    Awaiting(u8, Left),
}

// What is next: nothing was on its way, the exchange has ended, send again, or the pod is lost.
// The first is a case and no None: C has a number for it (`step_of` of tolmezha).
#[derive(Clone, Copy)]
pub enum Step {
    Idle,
    Ended,
    Again,
    Lost,
}

// What is next, what the answer was read as, where one was, and what is on its way after it.
// What was read stands beside the step, since 23 is told on the fourth send too; and what is read as a part of the answer stands there, as
// `heard_said` has the two.
#[derive(Clone, Copy)]
pub struct Heard {
    pub step: Step,
    pub reply: Option<Result<Meaning, Refusal>>,
    pub sending: Sending,
}
