// Nine numbers as the fields of an Initialise or an Update.
ghost use Rattle.std.specs.Prelude.{◌≡◌, cond, Option, Some, None};
ghost use Rattle.aircraft_lines.specs.Asked.{all_plain, sizes_in, line_given, command_asked, say_ask};

use crate::Line;
use crate::values::plain;
use airframe::fields_given;
use decimals::Number;
use packets::{Command, Fields};

// The sizes of numbers without signs.
// `map` of an array can't stop at a number with a sign, and so a loop: to zip with the places would be as long as `enumerate`.
fn sizes(list: [Option<Number>; 9]) -> Option<[u64; 9]>
    ensures { result ≡ cond (all_plain list) (Some (sizes_in list)) None }
{
    let mut sizes = [0; 9];
    for (i, n) in list.iter().enumerate() {
        sizes[i] = plain(*n)?;
    }
    Some(sizes)
}

// The command that has these fields, or one of them is outside.
// A flag and no `Code`, which has eight cases: `line_given` decides by the same one.
#[tactic(auto, unfolding(crate::specs::Asked::line_given))]
fn send(initialises: bool, given: Option<Fields>) -> Option<Line>
    ensures { result ≡ line_given initialises given }
{
    match given {
        Some(fields) if initialises => Some(Line::Send(Command::Initialise(fields))),
        Some(fields) => Some(Line::Send(Command::Update(fields))),
        None => Some(Line::Outside),
    }
}

// `Q 90` or `Q 92` and nine numbers.
// By the byte and no `Code`: `command_asked` decides by the byte.
pub fn nine(code: u8, list: [Option<Number>; 9]) -> Option<Line>
    ensures { result ≡ say_ask (command_asked code list) }
{
    let initialises = match code {
        0x90 => true,
        0x92 => false,
        _ => return None,
    };
    send(initialises, fields_given(sizes(list)?))
}
