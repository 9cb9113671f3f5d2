// What a command word asks for, by its parts.
ghost use Rattle.std.specs.Prelude.{◌≡◌, ◌≤◌, Some};
ghost use Rattle.orders.specs.Command.{parts_of, writes, length_allowed, transfer_asked, table_numbered, table_asked, order_of, order_heard, order_said};

use crate::{Order, Parts, Table};

// The parts of a command word. All sixteen bits count for the parity, bit 15 too.
#[tactic(auto, unfolding(crate::specs::Command::parts_of, crate::specs::Command::odd_ones))]
fn parts(word: u16) -> Parts
    ensures { result ≡ parts_of word }
{
    Parts {
        odd: u16::count_ones(word) % 2 == 1,
        reads: word / 0x4000 % 2 == 1,
        command: word / 0x200 % 0x20,
        n: word % 0x200,
    }
}

impl Table {
    // The table that this command loads and reads, if it is one of those. No `TryFrom`: `table_numbered` has no error, and `order` would
    // drop it.
    fn numbered(command: u16) -> Option<Table>
        ensures { result ≡ table_numbered command }
    {
        match command {
            5 => Some(Table::Five),
            6 => Some(Table::Six),
            7 => Some(Table::Seven),
            _ => None,
        }
    }
}

impl Parts {
    fn transfer(self, table: Table) -> Order
        requires { self.n ≤ 64 }
        ensures { result ≡ transfer_asked table self }
    {
        let n = self.n as u8;
        if self.reads {
            Order::Reading { table, n }
        } else {
            Order::Writing { table, n }
        }
    }

    fn writes(self, command: u16, n: u16) -> bool
        ensures { result ≡ writes self command n }
    {
        !self.reads && self.command == command && self.n == n
    }

    // Loads and reads first, since a read has most to do besides; no other command has their N.
    #[tactic(auto, using(crate::proofs::Orders::is_table), unfolding(crate::specs::Command::order_of))]
    fn order(self) -> Option<Order>
        ensures { result ≡ order_of self }
    {
        if !self.odd {
            return None;
        }
        if allowed(self.n) {
            let table = Table::numbered(self.command)?;
            return Some(self.transfer(table));
        }
        if self.writes(0, 0) {
            return Some(Order::Stop);
        }
        if self.writes(0, 1) {
            return Some(Order::Restart);
        }
        if self.writes(1, 1) {
            return Some(Order::Next);
        }
        None
    }
}

pub fn allowed(n: u16) -> bool
    ensures { result ≡ length_allowed n }
{
    (4..=64).contains(&n)
}

// What a command word asks for, of a pod that is initialised or not; none if it is not accepted.
#[tactic(auto, unfolding(crate::specs::Command::order_heard))]
pub fn heard(on: bool, word: u16) -> Option<Order>
    ensures { order_said result ≡ order_said (order_heard on word) }
{
    if !on {
        return None;
    }
    parts(word).order()
}
