// The loops. Something of what one call gives goes into the next, so that none can be left out.
use airframe::{Meaning, Refusal, build, read};
use packets::Command;

// How many bytes the last of so many calls built.
pub fn built(command: Command, times: usize, room: &mut [u8; 25]) -> usize {
    let mut n = 0;
    for _ in 0..times {
        n = build(command, room).unwrap_or(0);
    }
    n
}

// The code of the next command: the same one, as long as the answer is right.
// A code and no flag, here and below: it is what the next call is handed.
fn next(read: Result<Meaning, Refusal>) -> u8 {
    match read {
        Ok(Meaning::Block) => 0x96,
        _ => 0x95,
    }
}

// Whether the last of so many calls read a block. Before each the polynomial itself is added to the block, which keeps the CRC.
pub fn is_block(times: usize, answer: &mut [u8; 260]) -> bool {
    let mut code = 0x96;
    for _ in 0..times {
        answer[2] ^= 0x01;
        answer[3] ^= 0x10;
        answer[4] ^= 0x21;
        code = next(read(code, answer));
    }
    code == 0x96
}
