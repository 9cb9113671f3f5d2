// What a line asks, by its letter.
ghost use Rattle.std.specs.Prelude.{◌≡◌, ◌*◌, ◌≤◌, length};
ghost use Rattle.std.proofs.lemmas.List.Edits.{sets};
ghost use Rattle.aircraft_lines.specs.Asked.{is_spaced, query_in, taking_in, is_silence, answer_in, ask_in, say_ask, answer_bytes, bytes_left};

use crate::Line;
use crate::commands::asked;
use airframe::Form;
use decimals::numbers_in;
use items::bytes_in;
use lines::one_byte;

// Whether behind the code nothing stands, or a space.
fn spaced(line: &[u8]) -> bool
    ensures { result ≡ is_spaced line.now }
{
    matches!(line, [_, _, _, _] | [_, _, _, _, b' ', ..])
}

// `Q`, a code and numbers.
#[tactic(auto, unfolding(crate::specs::Asked::query_in, crate::specs::Asked::query_of, crate::specs::Asked::say_ask, lines::specs::Asked::one_byte))]
fn query(line: &[u8]) -> Option<Line>
    ensures { result ≡ say_ask (query_in line.now) }
{
    if line.len() < 4 {
        return None;
    }
    let code = one_byte(&line[1..4])?;
    if !spaced(line) {
        return None;
    }
    asked(code, numbers_in(&line[4..]))
}

// `Y` and a code.
fn taken(line: &[u8]) -> Option<Line>
    requires { length line.now ≡ 4 }
    ensures { result ≡ say_ask (taking_in line.now) }
{
    Some(Line::Take(one_byte(&line[1..4])?, Form::Taken))
}

// `Y`, a code and an error.
fn failed(line: &[u8]) -> Option<Line>
    requires { length line.now ≡ 7 }
    ensures { result ≡ say_ask (taking_in line.now) }
{
    let first = one_byte(&line[1..4])?;
    let error = one_byte(&line[4..7])?;
    Some(Line::Take(first, Form::Failed(error)))
}

// `Y` and one byte or two.
fn taking(line: &[u8]) -> Option<Line>
    ensures { result ≡ say_ask (taking_in line.now) }
{
    if line.len() == 4 {
        return taken(line);
    }
    if line.len() == 7 {
        return failed(line);
    }
    None
}

// `P -`.
fn silence(line: &[u8]) -> bool
    ensures { result ≡ is_silence line.now }
{
    matches!(line, [_, b' ', b'-'])
}

// `P` and bytes, or `P -`.
// That the lent memory has room for what a text can hold is a clause here and below: only there the text and the memory meet.
#[tactic(auto, unfolding(crate::specs::Asked::answer_in, crate::specs::Asked::answer_bytes, crate::specs::Asked::say_ask, items::specs::Text::items_of))]
fn answer(line: &[u8], bytes: &mut [u8]) -> Option<Line>
    requires { (1 ≤ length line.now) × (length line.now ≤ 3 * length bytes.old) }
    ensures value { result ≡ say_ask (answer_in line.now) }
    ensures bytes_after { bytes.new ≡ sets bytes.old 0 (answer_bytes line.now) }
{
    if silence(line) {
        return Some(Line::Wait);
    }
    bytes_in(&line[1..], bytes).map(|n| Line::Hear(n))
}

// A line of the table.
#[tactic(auto, unfolding(crate::specs::Asked::ask_in, crate::specs::Asked::bytes_left, crate::specs::Asked::say_ask))]
pub fn read_line(line: &[u8], bytes: &mut [u8]) -> Option<Line>
    requires { length line.now ≤ 3 * length bytes.old }
    ensures value { result ≡ say_ask (ask_in line.now) }
    ensures bytes_after { bytes.new ≡ sets bytes.old 0 (bytes_left line.now) }
{
    let (letter, _) = line.split_first()?;
    match *letter {
        b'Q' => query(line),
        b'Y' => taking(line),
        b'P' => answer(line, bytes),
        b'N' if line.len() == 1 => Some(Line::Again),
        _ => None,
    }
}
