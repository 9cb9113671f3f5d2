// The loop of a program that answers lines: lines from standard input, answers to standard output, both in large pieces.
ghost use Rattle.std.specs.Prelude.{◌≡◌, ◌≤◌, true, false, Bool, ◌&&◌, ltb, List, ℕ, length};
ghost use Rattle.lines.specs.Turns.{Turns, stand};
ghost use Rattle.pieces.specs.Desks.{InPiece};

use crate::{Desk, next_piece, start};
use items::front;
use lines::{Cursor, last, next_line, text};
use std::io::Stdin;

// What a program keeps from one line to the next, and how it answers one.
pub trait Answers {
    // a text answered, from one state to the next
    ghost answers: { List ℕ → Self → Self → Type 0 };
    // what holds between two texts
    ghost Fine: { Self → Type 0 };
    // whether the output has room for any answer
    ghost room: { Self → Bool };

    fn has_room(&self) -> bool
        ensures { result ≡ room self.now };

    fn answer(&mut self, text: &[u8])
        requires text_len_bound { length text.now ≤ 196606 }
        requires fine { Fine self.old }
        requires has_room { room self.old ≡ true }
        ensures answers { answers text.now self.old self.new }
        ensures fine { Fine self.new };

    // Writes what is gathered, and whether that went well.
    fn write(&mut self) -> bool
        requires { Fine self.old }
        ensures fine { Fine self.new }
        ensures has_room { room self.new ≡ true };
}

// The same of one that says besides how much it has gathered: nothing, once it is written.
pub trait Gathers {
    // a text answered, from one state to the next
    ghost answers: { List ℕ → Self → Self → Type 0 };
    // what holds between two texts
    ghost Fine: { Self → Type 0 };
    // whether the output has room for any answer
    ghost room: { Self → Bool };
    // how many characters are gathered
    ghost gathered: { Self → ℕ };

    fn has_room(&self) -> bool
        ensures { result ≡ room self.now };

    fn answer(&mut self, text: &[u8])
        requires text_len_bound { length text.now ≤ 196606 }
        requires fine { Fine self.old }
        requires has_room { room self.old ≡ true }
        ensures answers { answers text.now self.old self.new }
        ensures fine { Fine self.new };

    // Writes what is gathered, and whether that went well.
    fn write(&mut self) -> bool
        requires { Fine self.old }
        ensures fine { Fine self.new }
        ensures has_room { room self.new ≡ true }
        ensures written { gathered self.new ≡ 0 };
}

// Each of these answers lines.
impl<A: Gathers> Answers for A {
    ghost answers = { A.answers };

    ghost Fine = { A.Fine };

    ghost room = { A.room };

    fn has_room(&self) -> bool {
        Gathers::has_room(self)
    }

    fn answer(&mut self, text: &[u8]) {
        Gathers::answer(self, text);
    }

    fn write(&mut self) -> bool {
        Gathers::write(self)
    }
}

// The lines of a piece, one after another, until the piece ends or the output is nearly full: where the next one starts.
pub fn gather<A: Answers>(
    piece: &[u8],
    line: &mut [u8; 196606],
    start: Cursor,
    state: &mut A,
) -> Cursor
    requires inside { InPiece start (length piece.now) }
    requires fine { A.Fine state.old }
    requires piece_len_bound { length piece.now ≤ 65536 }
    ensures turns { Turns A.answers piece.now (stand start line.old state.old) (stand result line.new state.new) }
    ensures inside { InPiece result (length piece.now) }
    ensures fine { A.Fine state.new }
    ensures spent { (ltb result.from (length piece.now) && A.room state.new) ≡ false }
{
    let mut cursor = start;
    while (cursor.from < piece.len()) & state.has_room() {
        let cut = next_line(piece, line, cursor);
        cursor = cut.cursor;
        if let Some(found) = cut.found {
            state.answer(text(Some(found), piece, line));
        }
    }
    cursor
}

// Answers lines until the input ends or the output fails. Between two pieces, and before the first, nothing is gathered.
pub fn run_emptied<A: Gathers>(
    piece: &mut [u8; 65536],
    line: &mut [u8; 196606],
    state: &mut A,
    input: &mut Stdin,
)
    requires fine { A.Fine state.old }
    requires has_room { A.room state.old ≡ true }
    requires written { A.gathered state.old ≡ 0 }
{
    let mut desk = start();
    while desk.left > 0 {
        let cursor = gather(front(piece, desk.have), line, desk.cursor, state);
        let turned = Desk {
            cursor,
            have: desk.have,
            left: desk.left - 1,
        };
        desk = next_piece(turned, state.write(), piece, input);
    }
    let held = desk.cursor.held;
    if held > 0 {
        state.answer(text(Some(last(held)), piece, line));
        state.write();
    }
}
