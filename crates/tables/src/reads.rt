// Reads: where one starts, its words, and what it moves.
ghost use Rattle.std.specs.Prelude.{◌≡◌, ◌+◌, ◌<◌, ◌≤◌, length};
ghost use Rattle.tables.specs.Tables.{table_size, three, words_of, read_place, with_read_place};
ghost use Rattle.tables.specs.Port.{data_count, read_opened, read_word, read_next};

use crate::sizes::{data_count, number, within};
use crate::{Header, Places, Table, Transfer, Words};

impl Places {
    fn of(self, table: Table) -> u8
        ensures { result ≡ read_place table self }
    {
        match table {
            Table::Five => self.five,
            Table::Six => self.six,
            Table::Seven => self.seven,
        }
    }

    fn set(&mut self, table: Table, to: u8)
        ensures { self.new ≡ with_read_place table to self.old }
    {
        match table {
            Table::Five => self.five = to,
            Table::Six => self.six = to,
            Table::Seven => self.seven = to,
        }
    }
}

// A read from the given address, else from its table's place: open, with its place and the given address moved at once;
// or message error.
#[tactic(auto, using(crate::proofs::Reading::size_most), unfolding(crate::specs::Port::read_opened, crate::specs::Port::read_opened_at))]
pub fn read(w: &mut Words, header: Header)
    ensures { w.new ≡ read_opened header w.old }
{
    let place = w.places.of(header.table);
    let at = w.given.unwrap_or(u16::from(place));
    if !within(header, at) {
        w.error = true;
        return;
    }
    let start = at as u8;
    w.transfer = Transfer::Read {
        header,
        k: 0,
        start,
    };
    w.places.set(header.table, start + data_count(header));
    w.given = None;
}

// Word k of a read: the header, then the table. The bounds on `k` here and below are clauses: `sound_transfer` judges them, no type
// (src/lib.rt).
#[tactic(auto, using(crate::proofs::Reading::read_data), unfolding(crate::specs::Port::read_word))]
fn read_word(h: Header, k: u8, at: u8, from: &[u16]) -> u16
    requires { (k < h.n) × (at + data_count h ≤ length from.now) }
    ensures { result ≡ read_word h at from.now k }
{
    match k {
        0 => number(h.table),
        1 => u16::from(at),
        2 => u16::from(data_count(h)),
        _ => from[usize::from(at) + usize::from(k - 3)],
    }
}

// Word k of a read of whichever table: an arm for each, since they are arrays of two lengths. Lent one by one, as to `data_out`.
pub fn word_of(
    h: Header,
    k: u8,
    start: u8,
    five: &[u16; 64],
    six: &[u16; 128],
    seven: &[u16; 64],
) -> u16
    requires { (k < h.n) × (start + data_count h ≤ table_size h.table) }
    ensures { result ≡ read_word h start (words_of h.table (three five.now six.now seven.now)) k }
{
    match h.table {
        Table::Five => read_word(h, k, start, five),
        Table::Six => read_word(h, k, start, six),
        Table::Seven => read_word(h, k, start, seven),
    }
}

// After its last word a read is closed.
#[tactic(auto, unfolding(crate::specs::Port::read_next))]
pub fn next_read(header: Header, k: u8, start: u8) -> Transfer
    requires { k < header.n }
    ensures { result ≡ read_next header k start }
{
    let next = k + 1;
    if next < header.n {
        Transfer::Read {
            header,
            k: next,
            start,
        }
    } else {
        Transfer::Idle
    }
}
