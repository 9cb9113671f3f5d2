// A command or an acknowledgement from numbers of 32 bits, and what became of it as one number.
ghost use Rattle.std.specs.Prelude.{◌≡◌, ◌≤◌, true, pos, neg_ℤ, IfOk};
ghost use Rattle.rows.specs.Rows.{out};
ghost use Rattle.airframe.specs.Building.{refusal_number, command_wide, built_said};
ghost use Rattle.airframe.specs.Given.{given_in};
ghost use Rattle.tolmezha.specs.Numbers.{answered, command_answered, form_wide, acknowledgement_answered};

use crate::{
    FLAGS, MEMORY_LIMIT, MEMORY_REMAINING, MILLISECONDS, MODE, OUTSIDE, POLL, PRIORITY_LIMIT,
    PRIORITY_REMAINING, SECONDS, SMALL, WRONG,
};
use airframe::{Form, Refusal, fields_given};
use packets::{Command, Fields};

// Minus the refusal's number: by the numbers that the header has, so that these are proved.
#[tactic(auto, unfolding(airframe::specs::Building::refusal_number))]
pub fn refusal(why: Refusal) -> i32
    ensures { result ≡ neg_ℤ (pos (refusal_number why)) }
{
    match why {
        Refusal::Field => OUTSIDE,
        Refusal::Wrong => WRONG,
        Refusal::Room => SMALL,
    }
}

// A length, or minus the refusal's number.
#[tactic(auto, unfolding(airframe::specs::Building::built_said))]
fn number(built: Result<usize, Refusal>) -> i32
    requires { IfOk built (λ n. n ≤ 25) }
    ensures { result ≡ answered (built_said built) }
{
    match built {
        Ok(n) => n as i32,
        Err(why) => refusal(why),
    }
}

pub fn command(command: Command, room: &mut [u8]) -> i32
    requires { command_wide command ≡ true }
    ensures { out result tt room.new ≡ command_answered command room.old }
{
    number(airframe::build(command, room))
}

pub fn acknowledgement(first: u8, form: Form, room: &mut [u8]) -> i32
    requires { form_wide form ≡ true }
    ensures { out result tt room.new ≡ acknowledgement_answered first form room.old }
{
    number(airframe::acknowledge(first, form, room))
}

// None: a number is too large for its field.
pub fn nine(n: [u32; 9]) -> Option<Fields>
    ensures { result ≡ given_in n }
{
    let named = [
        n[MODE],
        n[FLAGS],
        n[SECONDS],
        n[MILLISECONDS],
        n[PRIORITY_LIMIT],
        n[PRIORITY_REMAINING],
        n[MEMORY_LIMIT],
        n[MEMORY_REMAINING],
        n[POLL],
    ];
    fields_given(named.map(u64::from))
}
