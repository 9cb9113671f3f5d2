// A transfer as five numbers: command, reading, N, words along, start.
ghost use Rattle.std.specs.Prelude.{◌≡◌, option_and_then};
ghost use Rattle.lab_lines.specs.Ranges.{within};
ghost use Rattle.lab_lines.specs.Asked.{moving, transfer_of, five_asked};

use crate::ranges::up_to;
use decimals::Number;
use lab_sets::Change;
use tables::{Header, Table, Transfer};

// A load, whose start is 0, or a read.
// The line's own numbers, here and below, as `moving` and `transfer_of` have them; any other number is refused in the last arm.
#[tactic(auto, unfolding(crate::specs::Asked::moving))]
fn moving(table: Table, reading: u8, n: u8, along: u8, start: u8) -> Option<Change>
    ensures { result ≡ moving table reading n along start }
{
    let header = Header { table, n };
    let transfer = match (reading, start) {
        (0, 0) => Transfer::Load { header, k: along },
        (1, _) => Transfer::Read {
            header,
            k: along,
            start,
        },
        _ => return None,
    };
    Some(Change::Transfer(transfer))
}

#[tactic(auto, unfolding(crate::specs::Asked::transfer_of))]
fn transfer_of(command: u8, reading: u8, n: u8, along: u8, start: u8) -> Option<Change>
    ensures { result ≡ transfer_of command reading n along start }
{
    match (command, reading, n, along, start) {
        (1, 0, 1, 0, 0) => Some(Change::Transfer(Transfer::Address)),
        (5, ..) => moving(Table::Five, reading, n, along, start),
        (6, ..) => moving(Table::Six, reading, n, along, start),
        (7, ..) => moving(Table::Seven, reading, n, along, start),
        _ => None,
    }
}

// A number from 0 to 255.
fn byte(n: Option<Number>) -> Option<u8>
    ensures { result ≡ option_and_then (within 255) n }
{
    Some(up_to(n?, 255)? as u8)
}

#[tactic(auto, unfolding(crate::specs::Asked::five_asked))]
pub fn five(list: [Option<Number>; 9]) -> Option<Change>
    ensures { result ≡ five_asked list }
{
    let [command, reading, n, along, start, ..] = list;
    transfer_of(
        byte(command)?,
        byte(reading)?,
        byte(n)?,
        byte(along)?,
        byte(start)?,
    )
}
