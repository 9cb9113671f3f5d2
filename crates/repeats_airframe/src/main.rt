// A call of the aircraft's half, repeated: what two runs differ by, that differ in the number of calls alone, is what those
// calls cost.
//
// Input is a line as the program `repeats` has them: `Q` or `P`, and bytes: one that is passed over, the number of calls,
// high byte first, and for `Q` a command's packet, which is built anew, for `P` an answer to 0x96, which is read. The packet
// or the block is printed, and `?` for any other line.
#![tactic(auto)]

mod turns;

use items::{Output, bytes_in, front};
use packets::Parsed;

// A letter and at most 256 bytes.
// As in `repeats` it ends with a line that writes what is gathered; the line before it is another.
fn print(letter: u8, bytes: &[u8]) {
    let mut line = [0u8; 772];
    let mut out = Output {
        out: &mut line,
        at: 0,
    };
    out.bytes_line(letter, front(bytes, 256));
    let at = out.at;
    io::write_all(1, front(out.characters(), at));
}

// Any other line.
fn other() {
    print(b'?', b"");
}

fn print_room(n: usize, room: &[u8; 25]) {
    print(b'Q', front(room, n));
}

fn build(times: usize, packet: &[u8]) {
    let mut room = [0u8; 25];
    match packets::read(packet) {
        Parsed::Asked(command) => {
            let n = turns::built(command, times, &mut room);
            print_room(n, &room);
        }
        _ => other(),
    }
}

fn print_block(answer: &[u8; 260]) {
    print(b'P', airframe::block(answer));
}

fn read(times: usize, answer: &[u8]) {
    if answer.len() != 260 {
        return other();
    }
    let mut held = [0u8; 260];
    numbers::copy(&mut held, 0, answer);
    if turns::is_block(times, &mut held) {
        return print_block(&held);
    }
    other();
}

fn repeat(letter: u8, given: &[u8]) {
    if given.len() < 3 {
        return other();
    }
    let times = usize::from(numbers::two_at(given, 1));
    match letter {
        b'Q' => build(times, &given[3..]),
        b'P' => read(times, &given[3..]),
        _ => other(),
    }
}

fn main() {
    let mut text = io::buffer();
    let mut given = io::buffer();
    let n = io::read_full(0, &mut text);
    let line = &text[..n];
    let end = lines::line_end(line, 0);
    if end == 0 {
        return other();
    }
    match bytes_in(&line[1..end], &mut given) {
        Some(count) => repeat(line[0], front(&given, count)),
        None => other(),
    }
}
