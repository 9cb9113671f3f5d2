// What a line asks. Its bytes and words are read into lent memory, which has room for what its text can hold: a bound of each function's
// own, since only there the text and the memory meet.
ghost use Rattle.std.specs.Prelude.{◌≡◌, ◌*◌, ◌≤◌, length};
ghost use Rattle.std.proofs.lemmas.List.Edits.{sets};
ghost use Rattle.lines.specs.Asked.{one_byte, one_word, packet_in, out_in, put_in, samples_in, bare_asked, word_asked, short_asked, line_of, say_line};

use crate::Line;
use blocks::Store;
use items::{byte_item, bytes_in, word_item, words_in};

// Exactly one byte. This and `one_word` are two: each is one pattern of its own length, as its definition says it, and one function would
// go by a trait with a definition for each.
#[tactic(auto, unfolding(crate::specs::Asked::one_byte))]
pub fn one_byte(text: &[u8]) -> Option<u8>
    ensures { result ≡ one_byte text.now }
{
    match text {
        [space, high, low] => byte_item(*space, *high, *low),
        _ => None,
    }
}

// Exactly one word.
#[tactic(auto, unfolding(crate::specs::Asked::one_word))]
fn one_word(text: &[u8]) -> Option<u16>
    ensures { result ≡ one_word text.now }
{
    match text {
        [space, a, b, c, d] => word_item(*space, *a, *b, *c, *d),
        _ => None,
    }
}

// `P` and bytes.
#[tactic(auto, unfolding(crate::specs::Asked::packet_in, crate::specs::Asked::say_line, items::specs::Text::items_of))]
pub fn packet_line(line: &[u8], bytes: &mut [u8]) -> Option<Line>
    requires { length line.now ≤ 3 * length bytes.old }
    ensures value { result ≡ say_line (packet_in line.now).asked }
    ensures bytes_after { bytes.new ≡ sets bytes.old 0 (packet_in line.now).bytes }
{
    let (letter, rest) = line.split_first()?;
    if *letter != b'P' {
        return None;
    }
    bytes_in(rest, bytes).map(|n| Line::Packet(n))
}

// `O` and bytes.
#[tactic(auto, unfolding(crate::specs::Asked::out_in, crate::specs::Asked::say_line, items::specs::Text::items_of))]
fn out_line(line: &[u8], bytes: &mut [u8]) -> Option<Line>
    requires { (1 ≤ length line.now) × (length line.now ≤ 3 * length bytes.old) }
    ensures value { result ≡ say_line (out_in line.now).asked }
    ensures bytes_after { bytes.new ≡ sets bytes.old 0 (out_in line.now).bytes }
{
    bytes_in(&line[1..], bytes).map(|n| Line::Out(n))
}

// `B p` or `B o`, and bytes. An arm for each store, as in `put_in`: a match from the letter to its store would be as long.
#[tactic(auto, unfolding(crate::specs::Asked::put_in, crate::specs::Asked::say_line, items::specs::Text::items_of))]
fn put_line(line: &[u8], bytes: &mut [u8]) -> Option<Line>
    requires { length line.now ≤ 3 * length bytes.old }
    ensures value { result ≡ say_line (put_in line.now).asked }
    ensures bytes_after { bytes.new ≡ sets bytes.old 0 (put_in line.now).bytes }
{
    match line {
        [_, b' ', b'p', rest @ ..] => bytes_in(rest, bytes).map(|n| Line::Put(Store::Priority, n)),
        [_, b' ', b'o', rest @ ..] => bytes_in(rest, bytes).map(|n| Line::Put(Store::Ordinary, n)),
        _ => None,
    }
}

// `A`, a byte and words.
#[tactic(auto, unfolding(crate::specs::Asked::samples_in, crate::specs::Asked::one_byte, crate::specs::Asked::say_line, items::specs::Text::items_of))]
fn samples_line(line: &[u8], words: &mut [u16]) -> Option<Line>
    requires { length line.now ≤ 5 * length words.old }
    ensures value { result ≡ say_line (samples_in line.now).asked }
    ensures words_after { words.new ≡ sets words.old 0 (samples_in line.now).words }
{
    match line {
        [_, space, high, low, rest @ ..] => {
            let check = byte_item(*space, *high, *low)?;
            words_in(rest, words).map(|n| Line::Samples(check, n))
        }
        _ => None,
    }
}

// A letter with nothing behind it.
#[tactic(auto, unfolding(crate::specs::Asked::bare_asked, crate::specs::Asked::say_line))]
fn bare(letter: u8) -> Option<Line>
    ensures { result ≡ say_line (bare_asked letter) }
{
    match letter {
        b'D' => Some(Line::Deadline),
        b'K' => Some(Line::Taken),
        b'R' => Some(Line::Read),
        b'S' => Some(Line::Status),
        b'T' => Some(Line::Timeout),
        b'Z' => Some(Line::Power),
        _ => None,
    }
}

// A letter and one item, or nothing.
#[tactic(auto, unfolding(crate::specs::Asked::short_asked, crate::specs::Asked::say_line))]
fn short(letter: u8, text: &[u8]) -> Option<Line>
    ensures { result ≡ say_line (short_asked letter text.now) }
{
    match letter {
        b'C' => one_word(text).map(|word| Line::Command(word)),
        b'W' => one_word(text).map(|word| Line::Data(word)),
        b'I' => one_byte(text).map(|byte| Line::Byte(byte)),
        _ if text.is_empty() => bare(letter),
        _ => None,
    }
}

// A line of the console's table.
#[tactic(auto, using(crate::proofs::Unread::packet_words, crate::proofs::Unread::put_words, crate::proofs::Unread::samples_bytes), unfolding(crate::specs::Asked::line_of, crate::specs::Asked::out_in, crate::specs::Asked::short_asked, crate::specs::Asked::bare_asked, crate::specs::Asked::say_line))]
pub fn read_line(line: &[u8], bytes: &mut [u8], words: &mut [u16]) -> Option<Line>
    requires { (length line.now ≤ 3 * length bytes.old) × (length line.now ≤ 5 * length words.old) }
    ensures value { result ≡ say_line (line_of line.now).asked }
    ensures bytes_after { bytes.new ≡ sets bytes.old 0 (line_of line.now).bytes }
    ensures words_after { words.new ≡ sets words.old 0 (line_of line.now).words }
{
    let (letter, rest) = line.split_first()?;
    match *letter {
        b'P' => packet_line(line, bytes),
        b'B' => put_line(line, bytes),
        b'O' => out_line(line, bytes),
        b'A' => samples_line(line, words),
        other => short(other, rest),
    }
}
