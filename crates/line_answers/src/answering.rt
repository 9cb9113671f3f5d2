// A line's answer, and what is gathered written: the loop over the lines is that of `pieces`.
ghost use Rattle.std.specs.Prelude.{◌≡◌, ◌+◌, ◌≤◌, true, List, ℕ, leb, length};
ghost use Rattle.line_calls.specs.Memory.{Within};
ghost use Rattle.line_answers.specs.Turns.{CallAnswered, TextAnswered, AnswersText, Ready};

use crate::Bench;
use crate::asking::{asked, next_sizes, own};
use lab_calls::own_line;
use line_calls::answer_in;
use pieces::{Gathers, flush_all};

// No line of output has more than 1,200 characters: with fewer left, what is gathered is written first.
const ENOUGH: usize = 64336;

// A text's call and its answer.
// `Within` is no invariant of `Sizes`: `size_set` of lab_calls gives a size any number, since `in_range` holds of each, and only the
// reading of a line bounds it. A text is a slice, so the bound of its length is a clause, here and below, as in `Gathers`.
fn called(text: &[u8], bench: &mut Bench<'_>)
    requires text_len_bound { length text.now ≤ 196606 }
    requires within { Within bench.old.sizes }
    requires at_bound { bench.old.out.at + 784 ≤ length bench.old.out.out.now }
    ensures { CallAnswered bench.old.program text.now bench.old bench.new }
{
    let line = asked(bench.program, text, &mut bench.bytes, &mut bench.words);
    answer_in(
        line,
        &mut bench.pod,
        bench.sizes,
        &bench.bytes,
        &bench.words,
        &mut bench.memory,
        &mut bench.out,
    );
    bench.sizes = next_sizes(line, bench.sizes);
}

// A text answered: a line of lab's own, or a call.
pub fn answered(text: &[u8], bench: &mut Bench<'_>)
    requires text_len_bound { length text.now ≤ 196606 }
    requires within { Within bench.old.sizes }
    requires at_bound { bench.old.out.at + 1200 ≤ length bench.old.out.out.now }
    ensures { TextAnswered bench.old.program text.now bench.old bench.new }
{
    if own(bench.program, text) {
        return own_line(
            text,
            &mut bench.pod,
            &mut bench.sizes,
            &bench.memory.priority,
            &bench.memory.ordinary,
            &bench.memory.five,
            &bench.memory.six,
            &bench.memory.seven,
            &mut bench.memory.load,
            &mut bench.out,
        );
    }
    called(text, bench);
}

// Beside the impl of `aircraft_loop` no plainer as one: `ENOUGH` is of the longest line that a program writes, the bodies are a line
// each, and what `write` keeps is named by the fields of this state.
impl<'a> Gathers for Bench<'a> {
    ghost answers = { AnswersText };

    ghost Fine = { Ready };

    ghost room = { λ b. leb b.out.at 64336 };

    ghost gathered = { λ b. b.out.at };

    fn has_room(&self) -> bool {
        self.out.at <= ENOUGH
    }

    fn answer(&mut self, text: &[u8]) {
        answered(text, self);
    }

    // The pod, the sizes and the memory stay so from piece to piece.
    fn write(&mut self) -> bool
        requires { Ready self.old }
        ensures fine { Ready self.new }
        ensures has_room { leb self.new.out.at 64336 ≡ true }
        ensures program { self.new.program ≡ self.old.program }
        ensures pod { self.new.pod ≡ self.old.pod }
        ensures sizes { self.new.sizes ≡ self.old.sizes }
        ensures memory { self.new.memory ≡ self.old.memory }
        ensures written { self.new.out.at ≡ 0 }
    {
        flush_all(&mut self.out)
    }
}
