// A command, by its code and the numbers behind it.
ghost use Rattle.std.specs.Prelude.{◌≡◌, List, [], ◌∷◌, Option};
ghost use Rattle.decimals.specs.declared.Number.{Number};
ghost use Rattle.decimals.specs.Reading.{numbers_read};
ghost use Rattle.aircraft_lines.specs.Asked.{bare_asked, command_asked, say_ask};

use crate::Line;
use crate::fields::nine;
use crate::values::{plain, value};
use decimals::{Number, Numbers};
use packets::Command;

// A command that carries nothing. By the byte and no `Code`, here and below: `command_asked` decides by the byte.
#[tactic(auto, unfolding(crate::specs::Asked::bare_asked, crate::specs::Asked::say_ask, airframe::specs::Given::command_typed))]
fn bare(code: u8) -> Option<Line>
    ensures { result ≡ say_ask (bare_asked code) }
{
    match code {
        0x91 => Some(Line::Send(Command::Status)),
        0x95 => Some(Line::Send(Command::Priority)),
        0x96 => Some(Line::Send(Command::Data)),
        0x9F => Some(Line::Send(Command::Shutdown)),
        _ => None,
    }
}

// `Q 93`, an id and a value.
fn writes(id: Option<Number>, v: Option<Number>) -> Option<Line>
    ensures { result ≡ say_ask (command_asked 0x93 (id ∷ v ∷ [])) }
{
    let id = plain(id)?;
    let v = v?;
    match (u8::try_from(id), value(v)) {
        (Ok(id), Some(value)) => Some(Line::Send(Command::Write(id, value))),
        _ => Some(Line::Outside),
    }
}

// `Q 94` and an id.
fn reads(id: Option<Number>) -> Option<Line>
    ensures { result ≡ say_ask (command_asked 0x94 (id ∷ [])) }
{
    let id = plain(id)?;
    match u8::try_from(id) {
        Ok(id) => Some(Line::Send(Command::Read(id))),
        Err(_) => Some(Line::Outside),
    }
}

// By how many numbers there are.
pub fn asked(code: u8, numbers: Numbers) -> Option<Line>
    ensures { (l : List (Option Number)) → numbers ≡ numbers_read l → result ≡ say_ask (command_asked code l) }
{
    let list = numbers.list;
    match (numbers.count, code) {
        (0, _) => bare(code),
        (9, _) => nine(code, list),
        (2, 0x93) => writes(list[0], list[1]),
        (1, 0x94) => reads(list[0]),
        _ => None,
    }
}
