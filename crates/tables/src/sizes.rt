// The sizes and numbers of the tables, and how far a transfer reaches.
ghost use Rattle.std.specs.Prelude.{◌≡◌};
ghost use Rattle.tables.specs.Tables.{table_size};
ghost use Rattle.orders.specs.Command.{table_number};
ghost use Rattle.tables.specs.Port.{data_count, fits};

use crate::{Header, Table};

// In words. Each size and each number is that of its definition, a line for a table: no shorter as one function. No `From`: `Table` is of
// `orders`.
pub fn size(table: Table) -> u32
    ensures { result ≡ table_size table }
{
    match table {
        Table::Five => 64,
        Table::Six => 128,
        Table::Seven => 64,
    }
}

pub fn number(table: Table) -> u16
    ensures { result ≡ table_number table }
{
    match table {
        Table::Five => 5,
        Table::Six => 6,
        Table::Seven => 7,
    }
}

// A transfer has three header words.
pub fn data_count(h: Header) -> u8
    ensures { result ≡ data_count h }
{
    h.n.saturating_sub(3)
}

// Whether the data words of a transfer, from `at` on, lie within its table.
pub fn within(h: Header, at: u16) -> bool
    ensures { result ≡ fits h.table at (data_count h) }
{
    u32::from(at) + u32::from(data_count(h)) <= size(h.table)
}
