// Lines cut from pieces of input.
ghost use Rattle.std.specs.Prelude.{◌≡◌, true, ℕ, ◌+◌, ◌≤◌, length, drop, IfSome};
ghost use Rattle.lines.specs.Cut.{before, held_of, kept_of, last_of, cut_of, held_line, FoundIn, text_of};

use crate::{Cursor, Cut, Found};
use items::front;
use scans::find;

// The longest line: `P` and 65,535 bytes.
pub const LONGEST: usize = 196606;

// Whether sixteen characters are all at or above the space, and so none of them a newline: one test for the processor. By hand, since
// `all` stops at the first one below, and a `fold` is no plainer.
fn plain(part: &[u8; 16]) -> bool
    ensures { result ≡ true → before part.now ≡ 16 }
{
    let mut all = true;
    for c in part {
        all &= *c >= b' ';
    }
    all
}

// A place further on with no newline before it, as far as whole parts of sixteen characters are plain. That the place lies in the text
// is a clause here, in `line_end` and in `next_line`: one line, of two arguments that only meet there.
fn past_plain(text: &[u8], from: usize) -> usize
    requires { from ≤ length text.now }
    ensures text_value { result + before (drop result text.now) ≡ from + before (drop from text.now) }
    ensures upper_bound { result ≤ length text.now }
{
    let mut rest = &text[from..];
    while let Some((part, behind)) = rest.split_first_chunk() {
        if !plain(part) {
            break;
        }
        rest = behind;
    }
    text.len() - rest.len()
}

// Where the line that starts at a place ends: at its newline, or at the end of the text.
pub fn line_end(text: &[u8], from: usize) -> usize
    requires { from ≤ length text.now }
    ensures value { result ≡ from + before (drop from text.now) }
    ensures upper_bound { result ≤ length text.now }
{
    find(text, past_plain(text, from), text.len(), b'\n')
}

// Keeps a part of a line behind what came of it before, unless the line is too long: then one over the longest, as `held_of` has it.
fn hold(line: &mut [u8], held: usize, part: &[u8]) -> usize
    requires { (196606 ≤ length line.old) × (held ≤ 196607) }
    ensures value { result ≡ held_of held (length part.now) }
    ensures line_after { line.new ≡ kept_of line.old held part.now }
{
    if part.len() > LONGEST {
        return LONGEST + 1;
    }
    if held + part.len() > LONGEST {
        return LONGEST + 1;
    }
    numbers::copy(line, held, part);
    held + part.len()
}

// The next line of a piece, from a place to its newline, behind what was held of it.
pub fn next_line(piece: &[u8], line: &mut [u8], cursor: Cursor) -> Cut
    requires { (cursor.from ≤ length piece.now) × (196606 ≤ length line.old) × (cursor.held ≤ 196607) }
    ensures value { result ≡ cut_of piece.now cursor }
    ensures line_after { line.new ≡ held_line piece.now cursor line.old }
    ensures found_in { IfSome result.found (λ f. FoundIn f (length piece.now)) }
    ensures from_in_bounds { (result.cursor.from ≤ length piece.now) × (result.cursor.held ≤ 196607) }
{
    let Cursor { from, held } = cursor;
    let end = line_end(piece, from);
    let behind = Cursor {
        from: end + 1,
        held: 0,
    };
    if (end < piece.len()) & (held == 0) {
        let found = Some(Found::Here(from, end));
        return Cut {
            found,
            cursor: behind,
        };
    }
    let kept = hold(line, held, &piece[from..end]);
    if end == piece.len() {
        return Cut {
            found: None,
            cursor: Cursor {
                from: end,
                held: kept,
            },
        };
    }
    Cut {
        found: Some(last(kept)),
        cursor: behind,
    }
}

// A line that was held.
#[tactic(auto, unfolding(crate::specs::Cut::last_of))]
pub fn last(held: usize) -> Found
    ensures value { result ≡ last_of held }
    ensures by_index { (n : ℕ) → FoundIn result n }
{
    if held > LONGEST {
        Found::Long
    } else {
        Found::Held(held)
    }
}

// The text of a line: a part of the piece, or what is held of it. One that is too long, or that goes on, is read as an empty
// one: both are another line. Its bound is a clause: pieces of any length are lent, and the trait `Answers` of `pieces` asks it of each text.
#[tactic(auto, unfolding(crate::specs::Cut::text_of))]
pub fn text<'a>(found: Option<Found>, piece: &'a [u8], line: &'a [u8]) -> &'a [u8]
    requires found_in { IfSome found (λ f. FoundIn f (length piece.now)) }
    requires piece_len_bound { (length piece.now ≤ 196606) × (length line.now ≤ 196606) }
    ensures result_value { result.now ≡ text_of found piece.now line.now }
    ensures result_len_bound { length result.now ≤ 196606 }
{
    match found {
        Some(Found::Here(from, end)) => &piece[from..end],
        Some(Found::Held(n)) => front(line, n),
        Some(Found::Long) | None => &line[..0],
    }
}
