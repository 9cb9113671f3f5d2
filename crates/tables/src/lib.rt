// The table words: three lent tables of 64, 128 and 64 words that are loaded and read a word at a time.
#![tactic(auto)]

mod bounds;
mod loads;
mod reads;
mod sizes;
mod starts;

ghost use Rattle.std.specs.Prelude.{◌≡◌, true, List, ℕ};
ghost use Rattle.tables.specs.Tables.{three};
ghost use Rattle.tables.specs.Lent.{held, SameTables};
ghost use Rattle.tables.specs.Bounds.{sound_words};
ghost use Rattle.tables.specs.Port.{desk, tabled, answer, close_of, command_of, data_in_of, data_out_of, status_of, wrong_way};

use crate::loads::load_word;
use crate::reads::{next_read, read, word_of};
pub use bounds::{idle, sized, sound};
pub use orders::Table;
use orders::{Order, heard};
pub use sizes::{number, size};
pub use starts::start_words;

// What an open load and an open read have in common: n words, of a table. That n is at most 64, and k below it, is no invariant: a state
// is lent with any numbers, and `sound_transfer` judges them. So loads.rt and reads.rt have it as clauses, each where it is needed.
#[derive(Clone, Copy)]
pub struct Header {
    pub table: Table,
    pub n: u8,
}

// The open transfer: none, the word of the next read address, a load that is k words along, or a read that is k words
// along and whose data words start at `start`. No Option: the rules name the four cases.
#[derive(Clone, Copy)]
pub enum Transfer {
    Idle,
    Address,
    Load { header: Header, k: u8 },
    Read { header: Header, k: u8, start: u8 },
}

// The read place of each table. Fields and not an array: the bounds and the theorems name them.
#[derive(Clone, Copy, Default)]
pub struct Places {
    pub five: u8,
    pub six: u8,
    pub seven: u8,
}

// The state of the port. The words of an open load are lent, as the tables are, and how many there are stands in the transfer: memory
// is fixed, and the rules have both apart (`desk`, `sound_transfer`). `given` is the address at which the next read starts, if one was
// given.
#[derive(Clone, Copy)]
pub struct Words {
    pub error: bool,
    pub transfer: Transfer,
    pub places: Places,
    pub given: Option<u16>,
}

// The three tables that are lent. That they are the same three afterwards each function says (`SameTables`): no type says it, since
// it is of two times, and behind `&mut` other references could have been put in their place.
#[derive(Drop)]
pub struct Tables<'a> {
    pub five: &'a mut [u16; 64],
    pub six: &'a mut [u16; 128],
    pub seven: &'a mut [u16; 64],
}

// Closes an open transfer, which sets message error.
#[tactic(auto, unfolding(crate::specs::Port::close_of))]
pub fn close(w: &mut Words)
    ensures { w.new ≡ close_of w.old }
{
    w.error |= !idle(w.transfer);
    w.transfer = Transfer::Idle;
}

// A command word; `on` says whether the pod is initialised. It is not lent the words of a load, whatever they are.
pub fn command(w: &mut Words, on: bool, word: u16, tables: &mut Tables)
    ensures same { SameTables tables.old tables.new }
    ensures does { (l : List ℕ) → tabled w.new (desk (held tables.new) l) ≡ command_of on word (tabled w.old (desk (held tables.old) l)) }
{
    close(w);
    match heard(on, word) {
        None => w.error = true,
        Some(Order::Stop) => {}
        Some(Order::Restart) => {
            tables.restart();
            w.places = Places::default();
            w.given = None;
        }
        Some(Order::Next) => w.transfer = Transfer::Address,
        Some(Order::Writing { table, n }) => {
            let header = Header { table, n };
            w.transfer = Transfer::Load { header, k: 0 };
        }
        Some(Order::Reading { table, n }) => read(w, Header { table, n }),
    }
}

#[tactic(auto, unfolding(crate::specs::Port::wrong_way))]
fn wrong_way(w: &mut Words)
    ensures { w.new ≡ wrong_way w.old }
{
    w.transfer = Transfer::Idle;
    w.error = true;
}

// A data word written. `load` holds the words of an open load as far as it has come; the rest of it is free.
#[tactic(auto, using(crate::proofs::Limits::load_open), unfolding(crate::specs::Port::data_in_of, crate::specs::Port::word_taken))]
pub fn data_in(w: &mut Words, x: u16, load: &mut [u16; 64], tables: &mut Tables)
    requires { sound_words w.old ≡ true }
    ensures same { SameTables tables.old tables.new }
    ensures does { tabled w.new (desk (held tables.new) load.new) ≡ data_in_of x (tabled w.old (desk (held tables.old) load.old)) }
{
    match w.transfer {
        Transfer::Idle | Transfer::Read { .. } => wrong_way(w),
        Transfer::Address => {
            w.transfer = Transfer::Idle;
            w.given = Some(x);
        }
        Transfer::Load { header, k } => load_word(w, header, k, x, load, tables),
    }
}

// A data word read. The three one by one: they are lent to be read, and `Tables` has references that write.
#[tactic(auto, unfolding(crate::specs::Port::data_out_of, crate::specs::Port::word_given))]
pub fn data_out(w: &mut Words, five: &[u16; 64], six: &[u16; 128], seven: &[u16; 64]) -> u16
    requires { sound_words w.old ≡ true }
    ensures { answer result w.new ≡ data_out_of w.old (three five.now six.now seven.now) }
{
    let Transfer::Read { header, k, start } = w.transfer else {
        wrong_way(w);
        return 0;
    };
    w.transfer = next_read(header, k, start);
    word_of(header, k, start, five, six, seven)
}

// The status word: 2 is its bit of message error, as `status_of` has it (`error_shown`).
#[tactic(auto, unfolding(crate::specs::Port::status_of))]
pub fn status(w: &mut Words) -> u16
    ensures { answer result w.new ≡ status_of w.old }
{
    let error = w.error;
    w.error = false;
    if error { 2 } else { 0 }
}
