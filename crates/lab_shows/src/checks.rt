// The CRCs of the memory.
ghost use Rattle.std.specs.Prelude.{◌≡◌, ◌≤◌, length, take};
ghost use Rattle.crc.specs.Crc.{crc_of};
ghost use Rattle.pipe.specs.Output.{held_out};
ghost use Rattle.lab_shows.specs.Shown.{word_bytes, along, shown_checks, lent_of};

use crate::Lent;
use crc::crc_of;
use items::front;
use numbers::put;
use pipe::Output;
use rules::Pod;
use tables::Transfer;

// The CRC of words, high byte first.
// The bound is a clause, since a table or a part of the load is handed in. `enumerate` gives the place for `put`: to zip with parts of
// two bytes would be as long.
fn words_crc(words: &[u16]) -> u16
    requires { length words.now ≤ 128 }
    ensures { result ≡ crc_of (word_bytes words.now) }
{
    let mut bytes = [0u8; 256];
    for (i, word) in words.iter().enumerate() {
        put(&mut bytes, 2 * i, word.to_be_bytes());
    }
    crc_of(&bytes[..2 * words.len()])
}

// How many words of an open load there are.
fn along(transfer: Transfer) -> usize
    ensures { result ≡ along transfer }
{
    match transfer {
        Transfer::Load { k, .. } => usize::from(k),
        _ => 0,
    }
}

// Of the bytes gathered, of the words of an open load, of the stores and of the tables.
#[tactic(auto, unfolding(crate::specs::Shown::shown_checks))]
pub fn all_checks(pod: &Pod, lent: &Lent) -> [u16; 7]
    requires { (length lent.now.five.now ≤ 128) × (length lent.now.six.now ≤ 128) × (length lent.now.seven.now ≤ 128) }
    ensures { result ≡ shown_checks pod.now (lent_of lent.now) }
{
    let Lent {
        priority,
        ordinary,
        five,
        six,
        seven,
        load,
    } = *lent;
    let input = pod.pipe.input;
    [
        crc_of(front(&input.bytes, input.gathered)),
        words_crc(front(load, along(pod.words.transfer))),
        crc_of(priority),
        crc_of(ordinary),
        words_crc(five),
        words_crc(six),
        words_crc(seven),
    ]
}

// Of the bytes in hand, of all 8 where more are.
#[tactic(auto, unfolding(pipe::specs::Output::held_out))]
pub fn hand_crc(output: Output) -> u16
    ensures { result ≡ crc_of (held_out output) }
{
    let from = 8usize.saturating_sub(usize::from(output.hand));
    crc_of(&output.bytes[from..])
}
