// Input in large pieces, and output written once it is gathered: what a program does between two pieces.
#![tactic(auto)]

mod plain;
mod turns;

ghost use Rattle.std.specs.Prelude.{◌≡◌};
ghost use Rattle.pieces.specs.Desks.{started, Went};

use items::{Output, front};
use lines::Cursor;
pub use plain::run;
use std::io::{Read, Stdin};
pub use turns::{Answers, Gathers, gather, run_emptied};

// The desk between two pieces: where the next line starts, how much of the piece there is, and how many turns are left, none
// once the input or the output has ended. A proved loop has to end, and nothing says that input does: so the turns left become
// fewer, from a number that no run uses up. How much there is stands beside the piece, and is no slice of it: the memory is fixed, and the
// next piece is read into the same array.
#[derive(Clone, Copy)]
pub struct Desk {
    pub cursor: Cursor,
    pub have: usize,
    pub left: u64,
}

// The start: nothing is read.
pub fn start() -> Desk
    ensures { result ≡ started }
{
    Desk {
        cursor: Cursor { from: 0, held: 0 },
        have: 0,
        left: u64::MAX,
    }
}

// Writes what is gathered, and whether that went well. A bool as `io::write_all` gives it, here, below and in `Answers`: there is no error
// to hand on, and `next_piece` alone asks. By `front`, since nothing here bounds the output's place.
pub fn flush(out: &[u8], at: usize) -> bool {
    io::write_all(1, front(out, at))
}

// The same of an output, of which nothing is gathered then.
pub fn flush_all(out: &mut Output<'_>) -> bool
    ensures at { out.new.at ≡ 0 }
    ensures characters { out.new.out.now ≡ out.old.out.now }
    ensures lent { out.new.out.ghost_name ≡ out.old.out.ghost_name }
{
    let at = out.at;
    let written = flush(out.characters(), at);
    out.at = 0;
    written
}

// Where the piece is answered to its end the next one is read. At the end of input a line without its newline is still held; where
// what was gathered could not be written all ends.
pub fn next_piece(desk: Desk, written: bool, piece: &mut [u8; 65536], input: &mut Stdin) -> Desk
    ensures { Went written desk result }
{
    let Cursor { from, held } = desk.cursor;
    if !written {
        return Desk {
            cursor: Cursor { from: 0, held: 0 },
            have: 0,
            left: 0,
        };
    }
    if from < desk.have {
        return desk;
    }
    let n = input.read(piece).unwrap_or(0);
    let left = if n == 0 { 0 } else { desk.left };
    Desk {
        cursor: Cursor { from: 0, held },
        have: n,
        left,
    }
}
