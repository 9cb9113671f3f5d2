// What packets are read as at the edges of the check list, and the answers with the whole room around them.
#![tactic(auto)]

mod print;

ghost use Rattle.std.specs.Prelude.{◌≤◌};

use packets::{Code, Fields, Report};
use print::{answer, line_of, show};

// What stands behind the first three bytes of a packet that is made here.
const PATTERN: [u8; 32] =
    *b"\x00\x00\x00\xA1\xB2\x12\x34\x56\x79\x02\x01\x01\x03\x80\x00\x00\x09\x00\x7F\xFE\xFD\x03\xE8\xC7\xD6\xE5\xF4\x13\x24\x35\x46\x57";

// A packet of n bytes: three that are given, a pattern, and its CRC, whose last byte is off by some bits.
fn try_one(rt: &impl Print, head: [u8; 3], n: usize, off: u8)
    requires { (2 ≤ n) × (n ≤ 32) }
{
    let mut p = PATTERN;
    p[..3].copy_from_slice(&head);
    let end = n - 2;
    let [high, low] = crc::crc_of(&p[..end]).to_be_bytes();
    p[end] = high;
    p[end + 1] = low ^ off;
    show(rt, &p[..n])
}

// One byte under, as many as the code has, and one over, with its CRC right and wrong.
#[tactic(auto, using(crate::proofs::Sizes::enough))]
fn lengths(rt: &impl Print, code: Code) {
    let head = [u8::from(code), 0x01, 0x02];
    let n = code.length();
    for m in [n - 1, n, n + 1] {
        try_one(rt, head, m, 0);
        try_one(rt, head, m, 1);
    }
}

// The second bytes around 0x01 and 0x09, in a packet of four bytes.
fn seconds(rt: &impl Print, first: u8) {
    for second in [0x00, 0x01, 0x02, 0x08, 0x09, 0x0A] {
        try_one(rt, [first, second, 0x02], 4, 0);
    }
}

// Five bytes, and one less and one more, around the acknowledgement form.
fn forms(rt: &impl Print, first: u8) {
    for (second, third, off) in [
        (0x01, 0x7E, 0),
        (0x01, 0x7E, 0x80),
        (0x01, 0x7D, 0),
        (0x01, 0x7F, 0),
        (0x02, 0x7E, 0),
        (0x08, 0x7E, 0),
        (0x09, 0x00, 0),
        (0x09, 0x7E, 0),
        (0x09, 0xFF, 1),
        (0x09, 0xFF, 0),
        (0x0A, 0x7E, 0),
    ] {
        try_one(rt, [first, second, third], 5, off);
    }
    for n in [4, 6] {
        try_one(rt, [first, 0x01, 0x7E], n, 0);
        try_one(rt, [first, 0x09, 0x7E], n, 0);
    }
}

// A parameter write.
fn write_of(rt: &impl Print, v: i32) {
    let [a, b, c, d] = v.to_be_bytes();
    let [high, low] = crc::crc_of(&[0x93, 0x01, 0x05, a, b, c, d]).to_be_bytes();
    show(rt, &[0x93, 0x01, 0x05, a, b, c, d, high, low])
}

// Fields at their bounds, and one past each.
fn bounds(rt: &impl Print) {
    let base = Fields {
        mode: 3,
        flags: 0xFFFF,
        seconds: 0xFFFF_FFFF,
        milliseconds: 999,
        prioritylimit: 16,
        priorityremaining: 16,
        memorylimit: 70000,
        memoryremaining: 70000,
        poll: 60000,
    };
    for f in [
        base,
        Fields { mode: 4, ..base },
        Fields {
            milliseconds: 1000,
            ..base
        },
        Fields {
            priorityremaining: 17,
            ..base
        },
        Fields {
            memoryremaining: 70001,
            ..base
        },
        Fields {
            poll: 60001,
            ..base
        },
        Fields { poll: 0, ..base },
        Fields { poll: 1, ..base },
    ] {
        line_of(rt, f);
    }
}

fn value(rt: &impl Print, id: u8, v: i32) {
    let mut room = [0xEEu8; 262];
    let n = packets::write_value(&mut room, 0x94, id, v);
    answer(rt, n, &room)
}

fn answers(rt: &impl Print) {
    let mut room = [0xEEu8; 262];
    let n = packets::write_error(&mut room, 0x9F, 0x38);
    answer(rt, n, &room);
    let n = packets::write_done(&mut room, 0x90);
    answer(rt, n, &room);
    let report = Report {
        mode: 3,
        flags: 0x1234,
        priority: 0x0110,
        ordinary: 0x0102_0380,
        ids: [1, 2, 3, 6, 7, 0, 0, 0],
    };
    let n = packets::write_status(&mut room, 0x91, report);
    answer(rt, n, &room);
    let mut block = [0xA5u8; 256];
    block[0] = 0x01;
    block[255] = 0xFE;
    let n = packets::write_data(&mut room, 0x96, &block);
    answer(rt, n, &room)
}

fn print_all(rt: &impl Print) {
    show(rt, b"");
    try_one(rt, [0x91, 0x01, 0x02], 2, 0);
    try_one(rt, [0x91, 0x01, 0x02], 3, 0);
    try_one(rt, [0x91, 0x01, 0x02], 3, 1);
    for first in 0x8F..=0xA0u8 {
        seconds(rt, first);
    }
    lengths(rt, Code::Initialise);
    lengths(rt, Code::Status);
    lengths(rt, Code::Update);
    lengths(rt, Code::Write);
    lengths(rt, Code::Read);
    lengths(rt, Code::Priority);
    lengths(rt, Code::Data);
    lengths(rt, Code::Shutdown);
    for first in [0x8F, 0x90, 0x94, 0x97, 0x9F, 0xA0] {
        forms(rt, first);
    }
    for v in [0, i32::MAX, i32::MIN, -1] {
        write_of(rt, v);
    }
    show(rt, &[0x9F, 0x01, 0x05, 0xFB]);
    show(rt, &[0xFF, 0xFF, 0x00, 0x00]);
    show(rt, &[0x91]);
    show(rt, b"");
    bounds(rt);
    answers(rt);
    value(rt, 1, -4000);
    value(rt, 12, 15000);
    value(rt, 2, i32::MIN);
    value(rt, 3, i32::MAX)
}

fn main(rt: HostRuntime) {
    print_all(&rt);
}
