// What a line of `X` or `L` asks for.
ghost use Rattle.std.specs.Prelude.{◌≡◌, ◌≤◌, length, take, drop};
ghost use Rattle.lab_lines.specs.Asked.{cell_asked, value_asked, exchange_of, exchange_asked, address_asked, transfer_asked, thing_asked, asked_of, only, name_end, change_in};

use crate::ranges::{cell_most, minus_one, right_size, up_to};
use crate::transfers::five;
use blocks::Store;
use decimals::{Number, Numbers, below, numbers_in};
use lab_names::{Part, named};
use lab_sets::{Cell, Change, Thing};
use packets::Code;
use rules::Exchange;
use scans::find;
use tables::Transfer;

#[tactic(auto, unfolding(crate::specs::Asked::cell_asked))]
fn cell_asked(cell: Cell, n: Number) -> Option<Change>
    ensures { result ≡ cell_asked cell n }
{
    Some(Change::Cell(cell, up_to(n, cell_most(cell))?))
}

// A value of 32 bits.
// aircraft_lines has the same two lines: one function for both would have a contract and an edit of its own, longer than what it saves.
#[tactic(auto, unfolding(crate::specs::Asked::value_asked))]
fn value_asked(id: u8, n: Number) -> Option<Change>
    ensures { result ≡ value_asked id n }
{
    let size = i64::try_from(n.size).ok()?;
    let value = if n.minus { -size } else { size };
    Some(Change::Value(id, i32::try_from(value).ok()?))
}

// By a match, at its one place: a TryFrom between the two would have the same arms.
#[tactic(auto, unfolding(crate::specs::Asked::exchange_of, packets::specs::Codes::code_number, packets::specs::Commands::is_code, packets::specs::Commands::listed_in))]
fn exchange_of(code: u64) -> Option<Change>
    ensures { result ≡ exchange_of code }
{
    let exchange = match Code::try_from(u8::try_from(code).ok()?).ok()? {
        Code::Status => Exchange::Status,
        Code::Read => Exchange::Read,
        Code::Priority => Exchange::Receive(Store::Priority),
        Code::Data => Exchange::Receive(Store::Ordinary),
        Code::Initialise | Code::Update | Code::Write | Code::Shutdown => return None,
    };
    Some(Change::Exchange(exchange))
}

#[tactic(auto, unfolding(crate::specs::Asked::exchange_asked))]
fn exchange_asked(n: Number) -> Option<Change>
    ensures { result ≡ exchange_asked n }
{
    if minus_one(n) {
        return Some(Change::Exchange(Exchange::Closed));
    }
    if below(n) {
        return None;
    }
    exchange_of(n.size)
}

#[tactic(auto, unfolding(crate::specs::Asked::address_asked))]
fn address_asked(n: Number) -> Option<Change>
    ensures { result ≡ address_asked n }
{
    if minus_one(n) {
        return Some(Change::Address(None));
    }
    Some(Change::Address(Some(up_to(n, 0xFFFF)? as u16)))
}

// The one number of a line; none where it has more or fewer.
fn only(numbers: Numbers) -> Option<Number>
    ensures { result ≡ only numbers }
{
    if numbers.count == 1 {
        numbers.list[0]
    } else {
        None
    }
}

#[tactic(auto, unfolding(crate::specs::Asked::transfer_asked))]
fn transfer_asked(numbers: Numbers) -> Option<Change>
    ensures { result ≡ transfer_asked numbers }
{
    if numbers.count == 5 {
        return five(numbers.list);
    }
    minus_one(only(numbers)?).then_some(Change::Transfer(Transfer::Idle))
}

#[tactic(auto, unfolding(crate::specs::Asked::thing_asked))]
fn thing_asked(thing: Thing, n: Number) -> Option<Change>
    ensures { result ≡ thing_asked thing n }
{
    let size = up_to(n, right_size(thing) + 1024)?;
    Some(Change::Thing(thing, size as usize))
}

#[tactic(auto, unfolding(crate::specs::Asked::asked_of))]
fn asked_of(part: Part, numbers: Numbers) -> Option<Change>
    ensures { result ≡ asked_of part numbers }
{
    match part {
        Part::Cell(cell) => cell_asked(cell, only(numbers)?),
        Part::Value(id) => value_asked(id, only(numbers)?),
        Part::Exchange => exchange_asked(only(numbers)?),
        Part::Address => address_asked(only(numbers)?),
        Part::Transfer => transfer_asked(numbers),
        Part::Thing(thing) => thing_asked(thing, only(numbers)?),
    }
}

// Where the name ends.
fn name_end(text: &[u8]) -> usize
    ensures { (take result text.now ≡ take (name_end text.now) text.now) × (drop result text.now ≡ drop (name_end text.now) text.now) × (result ≤ length text.now) }
{
    if text.len() < 2 {
        return text.len();
    }
    find(text, 2, text.len(), b' ')
}

// The change, from the name and the numbers behind it.
#[tactic(auto, unfolding(crate::specs::Asked::change_in))]
pub fn change(text: &[u8]) -> Option<Change>
    ensures { result ≡ change_in text.now }
{
    let (name, numbers) = text.split_at(name_end(text));
    asked_of(named(name)?, numbers_in(numbers))
}
