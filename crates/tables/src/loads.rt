// Loads: the words gather, and with the last one the run is stored, or nothing is.
ghost use Rattle.std.specs.Prelude.{◌≡◌, true, ◌+◌, ◌<◌, ◌≤◌, length};
ghost use Rattle.std.proofs.lemmas.List.Edits.{sets};
ghost use Rattle.tables.specs.Tables.{words_of, with_table};
ghost use Rattle.tables.specs.Lent.{held, SameTables};
ghost use Rattle.tables.specs.Port.{desk, tabled, load_right, stored_in, load_judged, load_of};

use crate::sizes::{data_count, number, within};
use crate::{Header, Table, Tables, Transfer, Words};
use numbers::copy;

// Whether a load's words are right. The bounds on `h.n` and `k` below are clauses: `sound_transfer` judges them, no type (src/lib.rt).
#[tactic(auto, unfolding(crate::specs::Port::load_right))]
fn right(h: Header, words: &[u16; 64]) -> bool
    ensures { result ≡ load_right h words.now }
{
    words[0] == number(h.table) && words[2] == u16::from(data_count(h)) && within(h, words[1])
}

impl Tables<'_> {
    // A right load's run, stored in its table: an arm for each, since they are arrays of two lengths.
    #[tactic(auto, using(crate::proofs::Loading::right_within), unfolding(crate::specs::Port::stored_in))]
    fn store(&mut self, h: Header, words: &[u16; 64])
        requires { (h.n ≤ 64) × (load_right h words.now ≡ true) }
        ensures same { SameTables self.old self.new }
        ensures stored { held self.new ≡ with_table h.table (stored_in h words.now (words_of h.table (held self.old))) (held self.old) }
    {
        let at = usize::from(words[1]);
        let run = &words[3..3 + usize::from(data_count(h))];
        match h.table {
            Table::Five => copy(self.five, at, run),
            Table::Six => copy(self.six, at, run),
            Table::Seven => copy(self.seven, at, run),
        }
    }
}

// A load at its last word, all its words gathered and the transfer closed.
#[tactic(auto, unfolding(crate::specs::Port::load_judged))]
fn last_word(w: &mut Words, h: Header, words: &[u16; 64], tables: &mut Tables)
    requires { h.n ≤ 64 }
    ensures same { SameTables tables.old tables.new }
    ensures does { tabled w.new (desk (held tables.new) words.now) ≡ load_judged h words.now w.old (held tables.old) }
{
    if right(h, words) {
        tables.store(h, words);
    } else {
        w.error = true;
    }
}

// Word k of a load.
#[tactic(auto, unfolding(crate::specs::Port::load_of))]
pub fn load_word(
    w: &mut Words,
    header: Header,
    k: u8,
    x: u16,
    load: &mut [u16; 64],
    tables: &mut Tables,
)
    requires { (header.n ≤ 64) × (k < header.n) }
    ensures same { SameTables tables.old tables.new }
    ensures does { tabled w.new (desk (held tables.new) load.new) ≡ load_of header k x (tabled w.old (desk (held tables.old) load.old)) }
{
    load[usize::from(k)] = x;
    let next = k + 1;
    if next < header.n {
        w.transfer = Transfer::Load { header, k: next };
        return;
    }
    w.transfer = Transfer::Idle;
    last_word(w, header, load, tables);
}
