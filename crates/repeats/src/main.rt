// One call, repeated: what two runs differ by, that differ in the number of calls alone, is what those calls cost.
//
// Input is a line: a letter of the console's table, or `Y` for the CRC of 258 bytes, and bytes: how many blocks wait in
// the ordinary store, the number of calls, high byte first, and what is handed in: a packet or a block, or for the table
// words two command words, one that is sent first and one that is repeated. The last answer is printed, and `?` for any
// other line.
#![tactic(auto)]

mod calls;
mod setup;
mod turns;

use crate::calls::{Call, call_of};
use items::{Output, bytes_in, front};
use rules::{Answer, Refusal};

fn print(letter: u8, answer: Result<Answer, Refusal>) {
    let mut line = [0u8; 8];
    let mut out = Output {
        out: &mut line,
        at: 0,
    };
    answers::put_answer(&mut out, letter, answer);
    let at = out.at;
    io::write_all(1, front(out.characters(), at));
}

// The last packet's answer lies at the start of the room; with no call there is none, and the letter stands alone.
// It has another room than `print` and another writer of `answers`; what is alike is the line at the end.
fn print_packet(answer: Result<Answer, Refusal>, room: &[u8; 260]) {
    let mut line = [0u8; 784];
    let mut out = Output {
        out: &mut line,
        at: 0,
    };
    answers::put_packet(&mut out, answer, room);
    let at = out.at;
    io::write_all(1, front(out.characters(), at));
}

// Any other line.
fn other() {
    print(b'?', Ok(Answer::Done));
}

fn repeat(letter: u8, call: Call, given: &[u8]) {
    let [waiting, high, low, bytes @ ..] = given else {
        return other();
    };
    let start = setup::awake(usize::from(*waiting));
    let times = usize::from(u16::from_be_bytes([*high, *low]));
    let mut room = [0u8; 260];
    let answer = turns::prepared(call, times, start, bytes, &mut room);
    if call == Call::Packet {
        return print_packet(answer, &room);
    }
    print(letter, answer);
}

fn main() {
    let mut text = io::buffer();
    let mut given = io::buffer();
    let n = io::read_full(0, &mut text);
    let line = &text[..n];
    let end = lines::line_end(line, 0);
    if end == 0 {
        return other();
    }
    let letter = line[0];
    let Some(call) = call_of(letter) else {
        return other();
    };
    match bytes_in(&line[1..end], &mut given) {
        Some(count) => repeat(letter, call, front(&given, count)),
        None => other(),
    }
}
