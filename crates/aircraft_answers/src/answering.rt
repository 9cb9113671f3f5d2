// A line's answer.
ghost use Rattle.std.specs.Prelude.{◌+◌, ◌≤◌, length, Option};
ghost use Rattle.items.specs.Output.{Written};
ghost use Rattle.airframe.specs.Building.{command_fits};
ghost use Rattle.airframe.specs.Sending.{heard_said};
ghost use Rattle.aircraft_lines.specs.Asked.{Ask, takes, again};
ghost use Rattle.aircraft_answers.specs.Spoken.{Way, sent_if, spoken_of, heard};
ghost use Rattle.aircraft_answers.specs.Promise.{way_in, Says, Spoke};

use crate::Underway;
use crate::outcomes::put_outcome;
use aircraft_lines::Line;
use airframe::{Form, Heard, Refusal, Sending, acknowledge, build};
use items::{Output, front};
use packets::Command;

// A command is built, and put on its way.
fn send(command: Command, way: &mut Underway, out: &mut Output<'_>)
    requires { out.old.at + 800 ≤ length out.old.out.now }
    ensures { Spoke (sent_if (command_fits command) command (way_in way.old)) way.new out.old out.new }
{
    let mut room = [0u8; 25];
    match build(command, &mut room) {
        Ok(count) => {
            out.bytes_line(b'P', front(&room, count));
            *way = Underway {
                sending: Sending::sent(room[0]),
                room,
                count,
            };
        }
        Err(_) => out.refused_line(b'Q', u8::from(Refusal::Field)),
    }
}

// An acknowledgement is built, and printed alone: nothing changes on its way.
fn take(first: u8, form: Form, out: &mut Output<'_>)
    requires { out.old.at + 800 ≤ length out.old.out.now }
    ensures { (w : Way) → Written (spoken_of (takes first form) w).text 800 out.old out.new }
{
    let mut room = [0u8; 25];
    match acknowledge(first, form, &mut room) {
        Ok(n) => out.bytes_line(b'P', front(&room, n)),
        Err(_) => out.refused_line(b'Y', u8::from(Refusal::Field)),
    }
}

// What came of an answer, or of none.
// The answer stands beside what came of it, as `heard_said` has the two.
fn tell(came: Heard, answer: &[u8], way: &mut Underway, out: &mut Output<'_>)
    requires { out.old.at + 800 ≤ length out.old.out.now }
    ensures { Spoke (heard (heard_said came answer.now) (way_in way.old)) way.new out.old out.new }
{
    put_outcome(out, came, answer);
    way.sending = came.sending;
}

// What is on its way is printed again.
fn again(way: &Underway, out: &mut Output<'_>)
    requires { out.old.at + 800 ≤ length out.old.out.now }
    ensures { Written (spoken_of again (way_in way.now)).text 800 out.old out.new }
{
    match way.sending {
        Sending::Over => out.append(b"N -\n"),
        Sending::Awaiting(_, _) => out.bytes_line(b'P', front(&way.room, way.count)),
    }
}

// What a line asks is answered; none is any other line.
pub fn answer(line: Option<Line>, way: &mut Underway, bytes: &[u8], out: &mut Output<'_>)
    requires { out.old.at + 800 ≤ length out.old.out.now }
    ensures { (a : Ask) → Says a line bytes.now → Spoke (spoken_of a (way_in way.old)) way.new out.old out.new }
{
    match line {
        Some(Line::Send(command)) => send(command, way, out),
        Some(Line::Outside) => out.refused_line(b'Q', u8::from(Refusal::Field)),
        Some(Line::Take(first, form)) => take(first, form, out),
        Some(Line::Hear(n)) => {
            let heard = front(bytes, n);
            tell(way.sending.reply(heard), heard, way, out);
        }
        Some(Line::Wait) => tell(way.sending.silence(), bytes, way, out),
        Some(Line::Again) => again(way, out),
        None => out.bare_line(b'?'),
    }
}
