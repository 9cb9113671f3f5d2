// A line answered, and what is gathered written: the loop over them is that of `pieces`.
ghost use Rattle.std.specs.Prelude.{◌≡◌, true, List, ℕ, leb, length};
ghost use Rattle.aircraft_answers.specs.Promise.{way_in};
ghost use Rattle.aircraft_loop.specs.Answering.{TextAnswered, begun};

use crate::Between;
use aircraft_answers::{Underway, answer};
use aircraft_lines::read_line;
use airframe::Sending;
use pieces::{Gathers, flush_all};

// The longest line of output has 800 characters: with fewer left, what is gathered is written first.
const ENOUGH: usize = 64736;

// Nothing on its way.
pub fn fresh() -> Underway
    ensures { way_in result ≡ begun }
{
    Underway {
        sending: Sending::Over,
        room: [0; 25],
        count: 0,
    }
}

// Beside the impl of `line_answers` no plainer as one: `ENOUGH` is of the longest line that a program writes, the bodies are a line
// each, and what `write` keeps is named by the fields of this state.
impl<'a> Gathers for Between<'a> {
    ghost answers = { TextAnswered };

    ghost Fine = { λ s. length s.out.out.now ≡ 65536 };

    ghost room = { λ s. leb s.out.at 64736 };

    ghost gathered = { λ s. s.out.at };

    fn has_room(&self) -> bool {
        self.out.at <= ENOUGH
    }

    fn answer(&mut self, text: &[u8]) {
        let line = read_line(text, &mut self.bytes);
        answer(line, &mut self.way, &self.bytes, &mut self.out);
    }

    // What is on its way stays so from piece to piece.
    fn write(&mut self) -> bool
        requires { length self.old.out.out.now ≡ 65536 }
        ensures fine { length self.new.out.out.now ≡ 65536 }
        ensures has_room { leb self.new.out.at 64736 ≡ true }
        ensures way { self.new.way ≡ self.old.way }
        ensures written { self.new.out.at ≡ 0 }
    {
        flush_all(&mut self.out)
    }
}
