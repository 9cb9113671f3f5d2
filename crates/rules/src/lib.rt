// The pod's state, and what its calls answer. What each call means stands in specs/, and so do the owner's demands.
#![tactic(auto)]

ghost use Rattle.std.specs.Prelude.{◌≡◌};
ghost use Rattle.rules.specs.Refusals.{refusal_number};
ghost use Rattle.rules.specs.Obey.{failure_number};

use blocks::{Ring, Store};
use packets::Fields;
use params::Params;
use pipe::Pipe;
use tables::Words;

// No exchange, or awaiting the acknowledgement of one of the four type 2 commands: an enum and no Option, since the rules name the open
// exchange by its five cases.
#[derive(Clone, Copy)]
pub enum Exchange {
    Closed,
    Status,
    Read,
    Receive(Store),
}

#[derive(Clone, Copy)]
pub struct Pod {
    pub initialised: bool,
    pub fields: Fields,
    pub params: Params,
    pub exchange: Exchange,
    pub words: Words,
    pub priority: Ring,
    pub ordinary: Ring,
    pub pipe: Pipe,
}

// Why a call is refused: document 01's rows 1 to 7, in their order, and request No. 3's 21 and 22.
#[derive(Clone, Copy, Debug, PartialEq, Eq)]
pub enum Refusal {
    Room,
    Size,
    State,
    Count,
    Over,
    Asleep,
    Full,
    Busy,
    Eight,
}

// Its number.
impl From<Refusal> for u8 {
    ghost from_gives = { λ why n. n ≡ refusal_number why };

    #[tactic(auto, unfolding(crate::specs::Refusals::refusal_number))]
    fn from(why: Refusal) -> u8 {
        match why {
            Refusal::Room => 1,
            Refusal::Size => 2,
            Refusal::State => 3,
            Refusal::Count => 4,
            Refusal::Over => 5,
            Refusal::Asleep => 6,
            Refusal::Full => 7,
            Refusal::Busy => 21,
            Refusal::Eight => 22,
        }
    }
}

// What a call answers that is not refused, besides bytes that lie in lent memory or stand beside it.
#[derive(Clone, Copy, Debug, PartialEq, Eq)]
pub enum Answer {
    Done,
    Length(usize),
    Word(u16),
}

// What a command is answered that passes its checks, before it is bytes.
#[derive(Clone, Copy)]
pub enum Reply {
    Success,
    Report,
    Value(u8, i32),
    Block(Store),
}

// The check of a command that fails: the pod is asleep, a field is outside its bounds, nothing waits, or none of it remains.
#[derive(Clone, Copy, Debug, PartialEq, Eq)]
pub enum Failure {
    Asleep,
    Outside,
    Nothing,
    Spent,
}

// Its error number.
impl From<Failure> for u8 {
    ghost from_gives = { λ failure n. n ≡ failure_number failure };

    #[tactic(auto, unfolding(crate::specs::Obey::failure_number))]
    fn from(failure: Failure) -> u8 {
        match failure {
            Failure::Asleep => 0x38,
            Failure::Outside => 0x39,
            Failure::Nothing => 0x3A,
            Failure::Spent => 0x3B,
        }
    }
}
