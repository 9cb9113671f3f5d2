// Answers, each read as the answer to a code: right ones, and wrong ones of every kind.
ghost use Rattle.std.specs.Prelude.{◌≤◌};

use crate::print::{Meant, Pairs, Shortened};
use packets::Code;

const CODES: [Code; 8] = [
    Code::Initialise,
    Code::Status,
    Code::Update,
    Code::Write,
    Code::Read,
    Code::Priority,
    Code::Data,
    Code::Shutdown,
];

fn show(rt: &impl Print, code: u8, answer: &[u8]) {
    let read = airframe::read(code, answer);
    let _ = println!(rt;
        "R {code:02X}{} ={}",
        Shortened(answer),
        Meant(read, answer)
    );
}

// Bytes that differ from their neighbours, three of them given.
fn body(head: [u8; 3]) -> [u8; 261] {
    let mut a = [0u8; 261];
    for (i, b) in a.iter_mut().enumerate() {
        *b = ((i * 7 + 186) % 256) as u8;
    }
    a[..3].copy_from_slice(&head);
    a
}

// An answer of n bytes whose CRC is off by some bits. The bound stays a clause: a test here would pass over a wrong length in
// silence, and a type with it would be built at every call.
fn off_by(rt: &impl Print, off: u16, code: u8, head: [u8; 3], n: usize)
    requires { (2 ≤ n) × (n ≤ 261) }
{
    let mut a = body(head);
    let end = n - 2;
    let [high, low] = (crc::crc_of(&a[..end]) ^ off).to_be_bytes();
    a[end] = high;
    a[end + 1] = low;
    show(rt, code, &a[..n])
}

fn try_one(rt: &impl Print, code: u8, head: [u8; 3], n: usize)
    requires { (2 ≤ n) × (n ≤ 261) }
{
    off_by(rt, 0, code, head, n)
}

// A length, by both second bytes.
fn length(rt: &impl Print, code: u8, n: usize)
    requires { (2 ≤ n) × (n ≤ 261) }
{
    try_one(rt, code, [code, 0x01, 0x7E], n);
    try_one(rt, code, [code, 0x09, 0x7E], n)
}

// Every length from 0 on, up to one more than is due.
fn lengths(rt: &impl Print, code: u8, due: usize)
    requires { due ≤ 260 }
{
    show(rt, code, b"");
    show(rt, code, &[code]);
    try_one(rt, code, [code, 0x01, 0x7E], 2);
    try_one(rt, code, [code, 0x01, 0x7E], 3);
    for n in 4..due + 2 {
        length(rt, code, n);
    }
}

// A block's answer is long: not every length up to it, but those of the other answers, and the ones around its own.
fn data_lengths(rt: &impl Print, code: u8) {
    lengths(rt, code, 9);
    for n in [22, 259, 260, 261] {
        length(rt, code, n);
    }
}

#[tactic(auto, using(crate::proofs::Sizes::enough))]
fn due_lengths(rt: &impl Print, code: Code) {
    match code {
        Code::Priority | Code::Data => data_lengths(rt, u8::from(code)),
        _ => lengths(rt, u8::from(code), code.answer()),
    }
}

#[tactic(auto, using(crate::proofs::Sizes::enough))]
fn damaged(rt: &impl Print, code: Code, off: u16) {
    let byte = u8::from(code);
    off_by(rt, off, byte, [byte, 0x01, 0x7E], code.answer());
    off_by(rt, off, byte, [byte, 0x09, 0x38], 5)
}

#[tactic(auto, using(crate::proofs::Sizes::enough))]
fn other_first(rt: &impl Print, code: Code, first: u8) {
    let byte = u8::from(code);
    try_one(rt, byte, [first, 0x01, 0x7E], code.answer());
    try_one(rt, byte, [first, 0x09, 0x38], 5)
}

fn seconds(rt: &impl Print, code: u8, n: usize)
    requires { (2 ≤ n) × (n ≤ 261) }
{
    for second in [0x00, 0x01, 0x02, 0x08, 0x09, 0x0A] {
        for third in [0x7D, 0x7E, 0x7F] {
            try_one(rt, code, [code, second, third], n);
        }
    }
}

// Error bytes that document 01 has, and some that it has not.
fn errors(rt: &impl Print, code: u8) {
    for error in [0x00, 0x01, 0x38, 0xFF] {
        try_one(rt, code, [code, 0x09, error], 5);
    }
}

// A wrong CRC, another first byte, and the second and third bytes around the right ones.
#[tactic(auto, using(crate::proofs::Sizes::enough))]
fn wrong(rt: &impl Print, code: Code) {
    for off in [0x0001, 0x0100, 0xFFFF] {
        damaged(rt, code, off);
    }
    let byte = u8::from(code);
    for first in [byte ^ 0x01, byte ^ 0x80, 0x00, 0xFF] {
        other_first(rt, code, first);
    }
    seconds(rt, byte, code.answer());
    errors(rt, byte)
}

// Bytes that are no command's code.
fn unknown(rt: &impl Print, code: u8) {
    show(rt, code, b"");
    for n in [4, 5, 9, 22, 260] {
        length(rt, code, n);
    }
}

// A value is read as it stands, whatever its id.
fn value(rt: &impl Print, id: u8, v: i32) {
    let code = u8::from(Code::Read);
    let mut a = [0u8; 9];
    packets::write_value(&mut a, code, id, v);
    show(rt, code, &a)
}

fn as_they_stand(rt: &impl Print) {
    value(rt, 200, -1);
    value(rt, 0, 0);
    value(rt, 255, i32::MAX);
    value(rt, 3, i32::MIN);
    let status = u8::from(Code::Status);
    try_one(rt, status, [status, 0x01, 9], 22)
}

pub fn all(rt: &impl Print) {
    for code in CODES {
        due_lengths(rt, code);
    }
    for code in CODES {
        wrong(rt, code);
    }
    for longer in [Code::Status, Code::Read, Code::Priority, Code::Data] {
        seconds(rt, u8::from(longer), 5);
    }
    for code in [0x00, 0x8F, 0x97, 0xA0, 0xFF] {
        unknown(rt, code);
    }
    as_they_stand(rt)
}
