// How large each part and each lent thing may be asked for.
ghost use Rattle.std.specs.Prelude.{◌≡◌, ◌≤◌, IfSome};
ghost use Rattle.tables.specs.Tables.{table_size};
ghost use Rattle.lab_sets.specs.Ranges.{store_most, field_most, cell_most};
ghost use Rattle.lab_lines.specs.Ranges.{within, minus_one, store_size, right_size};

use blocks::{BLOCK, Store, capacity};
use decimals::{Number, below};
use lab_sets::{Cell, Field, Thing};
use tables::{Table, size};

// How much a number is, where it is 0 to `most`.
pub fn up_to(n: Number, most: u64) -> Option<u64>
    ensures value { result ≡ within most n }
    ensures small { IfSome result (λ size. size ≤ most) }
{
    (!below(n) & (n.size <= most)).then_some(n.size)
}

pub fn minus_one(n: Number) -> bool
    ensures { result ≡ minus_one n }
{
    n.minus & (n.size == 1)
}

// Limit and remaining: 16 bits of the priority store, 32 of the ordinary one.
// These are sizes, here and below: each is that of the definition of its name, a line for a case.
fn store_most(store: Store) -> u64
    ensures { result ≡ store_most store }
{
    match store {
        Store::Priority => 0xFFFF,
        Store::Ordinary => 0xFFFF_FFFF,
    }
}

fn field_most(field: Field) -> u64
    ensures { result ≡ field_most field }
{
    match field {
        Field::Mode => 0xFF,
        Field::Flags | Field::Milliseconds | Field::Poll => 0xFFFF,
        Field::Seconds => 0xFFFF_FFFF,
        Field::Limit(store) | Field::Remaining(store) => store_most(store),
    }
}

pub fn cell_most(cell: Cell) -> u64
    ensures { result ≡ cell_most cell }
{
    match cell {
        Cell::Initialised | Cell::Written(_) | Cell::Error => 1,
        Cell::Field(field) => field_most(field),
        Cell::Missing(_) | Cell::Place(_) | Cell::Oldest(_) | Cell::Waiting(_) => 0xFF,
        Cell::Timeouts | Cell::Outtimeouts => 0xFF,
        Cell::Gathered => 8,
        Cell::Out => 9,
    }
}

fn store_size(store: Store) -> u64
    ensures { (result ≡ store_size store) × (result ≤ 32768) }
{
    (capacity(store) * BLOCK) as u64
}

fn table_size(table: Table) -> u64
    ensures { (result ≡ table_size table) × (result ≤ 32768) }
{
    u64::from(size(table))
}

// The size at which a thing is lent as usual.
pub fn right_size(thing: Thing) -> u64
    ensures { (result ≡ right_size thing) × (result ≤ 32768) }
{
    match thing {
        Thing::Room => 260,
        Thing::Store(store) => store_size(store),
        Thing::Table(table) => table_size(table),
    }
}
