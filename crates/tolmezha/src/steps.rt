// The steps of a sending, over a state of two numbers.
ghost use Rattle.std.specs.Prelude.{◌≡◌, cond};
ghost use Rattle.rows.specs.Rows.{out};
ghost use Rattle.airframe.specs.Sending as sending;
ghost use Rattle.tolmezha.specs.Numbers.{sends_of, state_of, sending_in, step_of, read_told};

use crate::{AGAIN, ENDED, IDLE, LOST};
use airframe::{Left, Meaning, Refusal, Sending, Step};

// The number that C is told.
fn sends_of(left: Left) -> u32
    ensures { result ≡ sends_of left }
{
    match left {
        Left::Nought => 1,
        Left::One => 2,
        Left::Two => 3,
        Left::Three => 4,
    }
}

// What is on its way by a state; nothing by one that is none.
pub fn sending_in(state: [u32; 2]) -> Sending
    ensures { result ≡ sending_in state }
{
    let Ok(code) = u8::try_from(state[0]) else {
        return Sending::Over;
    };
    let left = match state[1] {
        1 => Left::Nought,
        2 => Left::One,
        3 => Left::Two,
        4 => Left::Three,
        _ => return Sending::Over,
    };
    Sending::Awaiting(code, left)
}

pub fn state_of(next: Sending) -> [u32; 2]
    ensures { result ≡ state_of next }
{
    match next {
        Sending::Over => [0, 0],
        Sending::Awaiting(code, left) => [u32::from(code), sends_of(left)],
    }
}

// Where nothing was on its way the state is kept, and so is one that is none.
pub fn leave(before: Sending, next: Sending, state: &mut [u32; 2])
    ensures { state.new ≡ cond (sending.is_over before) state.old (state_of next) }
{
    if let Sending::Awaiting(_, _) = before {
        *state = state_of(next);
    }
}

// The steps' numbers in C stand here and not in the order of airframe's enum.
pub fn step_of(step: Step) -> i32
    ensures { result ≡ step_of step }
{
    match step {
        Step::Idle => IDLE,
        Step::Ended => ENDED,
        Step::Again => AGAIN,
        Step::Lost => LOST,
    }
}

// What an answer was read as, where it was read.
// The answer stands beside what it means, as `reply_said` has the two.
pub fn put_reply(
    reply: Option<Result<Meaning, Refusal>>,
    answer: &[u8],
    kind: &mut i32,
    values: &mut [i64; 13],
)
    ensures { out kind.new tt values.new ≡ read_told (sending.reply_said reply answer.now) kind.old values.old }
{
    if let Some(read) = reply {
        *kind = crate::reading::put(read, answer, values);
    }
}
