// What a line that was found asks.
ghost use Rattle.std.specs.Prelude.{◌≡◌, List, ℕ, ◌≤◌, length};
ghost use Rattle.line_calls.specs.Calls.{heard_line};
ghost use Rattle.line_answers.specs.Lines.{asking_of, own_in, sizes_after};

use crate::Program;
use lab_calls::is_own;
use line_calls::{Sizes, right_sizes};
use lines::{Line, packet_line, read_line};

// What a text asks of a program.
// A text is a slice, so the bound of its length is a clause, as in `Answers`: what it is read into has room for so much.
pub fn asked(
    program: Program,
    text: &[u8],
    bytes: &mut [u8; 65536],
    words: &mut [u16; 65536],
) -> Option<Line>
    requires { length text.now ≤ 196606 }
    ensures { heard_line result bytes.new words.new ≡ (asking_of program text.now).asked }
{
    match program {
        Program::Session => packet_line(text, bytes),
        Program::Console | Program::Lab => read_line(text, bytes, words),
    }
}

// Whether a text is a line of lab's own: no call.
#[tactic(auto, unfolding(crate::specs::Lines::own_in))]
pub fn own(program: Program, text: &[u8]) -> bool
    ensures { result ≡ own_in program text.now }
{
    match program {
        Program::Session | Program::Console => false,
        Program::Lab => is_own(text),
    }
}

// After a call everything is lent at its right size again; a line that calls nothing leaves the sizes.
pub fn next_sizes(line: Option<Line>, sizes: Sizes) -> Sizes
    ensures { (bs ws : List ℕ) → result ≡ sizes_after (heard_line line bs ws) sizes }
{
    match line {
        None => sizes,
        Some(_) => right_sizes(),
    }
}
