// The loop for one that doesn't say how much it has gathered.
ghost use Rattle.std.specs.Prelude.{◌≡◌, true, List, ℕ};

use crate::{Answers, Gathers, run_emptied};
use std::io::Stdin;

// One that answers lines, lent, and taken to have gathered nothing.
#[derive(Drop)]
struct Plain<'a, A> {
    one: &'a mut A,
}

impl<'a, A: Answers> Gathers for Plain<'a, A> {
    ghost answers = { λ t s r. A.answers t s.one.now r.one.now };

    ghost Fine = { λ s. A.Fine s.one.now };

    ghost room = { λ s. A.room s.one.now };

    ghost gathered = { λ s. 0 };

    fn has_room(&self) -> bool {
        self.one.has_room()
    }

    fn answer(&mut self, text: &[u8]) {
        self.one.answer(text);
    }

    fn write(&mut self) -> bool {
        self.one.write()
    }
}

// Answers lines until the input ends or the output fails, whatever is gathered before the first.
pub fn run<A: Answers>(
    piece: &mut [u8; 65536],
    line: &mut [u8; 196606],
    state: &mut A,
    input: &mut Stdin,
)
    requires fine { A.Fine state.old }
    requires has_room { A.room state.old ≡ true }
{
    run_emptied(piece, line, &mut Plain { one: state }, input);
}
