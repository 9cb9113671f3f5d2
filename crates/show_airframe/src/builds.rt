// Commands and acknowledgements, each built into a room of 0xEE.
ghost use Rattle.std.specs.Prelude.{◌≤◌};

use crate::print::{Acknowledged, Built, Carried};
use airframe::Form;
use packets::{Command, Fields};

// No closure that builds: the line shows what is built, too.
#[derive(Clone, Copy)]
enum Packet {
    Asked(Command),
    Acknowledged(u8, Form),
}

fn show(rt: &impl Print, packet: Packet, room: &mut [u8]) {
    match packet {
        Packet::Asked(command) => {
            let built = airframe::build(command, room);
            let _ = println!(rt; "Q{}{}", Carried(command), Built(built, room));
        }
        Packet::Acknowledged(first, form) => {
            let built = airframe::acknowledge(first, form, room);
            let _ = println!(rt; "Y{}{}", Acknowledged(first, form), Built(built, room));
        }
    }
}

fn show_in(rt: &impl Print, packet: Packet, n: usize)
    requires { n ≤ 40 }
{
    let mut room = [0xEEu8; 40];
    show(rt, packet, &mut room[..n])
}

// Every room up to one more than is asked for, and a larger one.
fn rooms(rt: &impl Print, packet: Packet) {
    for n in 0..27usize {
        show_in(rt, packet, n);
    }
    show_in(rt, packet, 40)
}

// The least room, and one byte less: a field is judged before the room.
fn both(rt: &impl Print, packet: Packet) {
    show_in(rt, packet, 25);
    show_in(rt, packet, 24)
}

fn both_of(rt: &impl Print, command: Command) {
    both(rt, Packet::Asked(command))
}

fn carried(rt: &impl Print, f: Fields) {
    both_of(rt, Command::Initialise(f));
    both_of(rt, Command::Update(f))
}

// Every field as large as it may be.
fn largest() -> Fields {
    Fields {
        mode: 3,
        flags: 0xFFFF,
        seconds: 0x3F_FFFF,
        milliseconds: 999,
        prioritylimit: 0xFFFF,
        priorityremaining: 0xFFFF,
        memorylimit: 0xFFFF_FFFF,
        memoryremaining: 0xFFFF_FFFF,
        poll: 60000,
    }
}

// Every field as small as it may be.
fn least() -> Fields {
    Fields {
        mode: 0,
        flags: 0,
        seconds: 0,
        milliseconds: 0,
        prioritylimit: 0,
        priorityremaining: 0,
        memorylimit: 0,
        memoryremaining: 0,
        poll: 1,
    }
}

// One field outside its bounds, or at them.
fn fields(rt: &impl Print) {
    carried(rt, least());
    carried(rt, largest());
    carried(
        rt,
        Fields {
            mode: 4,
            ..largest()
        },
    );
    for seconds in [0x40_0000, 0xFFFF_FFFF] {
        carried(
            rt,
            Fields {
                seconds,
                ..largest()
            },
        );
    }
    carried(
        rt,
        Fields {
            milliseconds: 1000,
            ..largest()
        },
    );
    for poll in [60001, 0] {
        carried(rt, Fields { poll, ..largest() });
    }
}

// Each remaining against its limit.
fn remainings(rt: &impl Print) {
    for prioritylimit in [0, 1] {
        carried(
            rt,
            Fields {
                prioritylimit,
                priorityremaining: 1,
                ..least()
            },
        );
    }
    for (memorylimit, memoryremaining) in [(0, 1), (1, 1), (0x1_0000, 0x1_0001)] {
        carried(
            rt,
            Fields {
                memorylimit,
                memoryremaining,
                ..least()
            },
        );
    }
}

// A parameter's values around its row.
fn row(rt: &impl Print, id: u8, below: i32, least: i32, most: i32, above: i32) {
    for value in [below, least, most, above] {
        both_of(rt, Command::Write(id, value));
    }
}

fn parameters(rt: &impl Print) {
    row(rt, 1, -4001, -4000, 15000, 15001);
    row(rt, 2, -4001, -4000, 15000, 15001);
    row(rt, 3, 99, 100, 1000, 1001);
    row(rt, 4, 39, 40, 60000, 60001);
    row(rt, 5, 0, 1, 16, 17);
    row(rt, 6, -4001, -4000, 15000, 15001);
    row(rt, 7, -1, 0, 3, 4);
    row(rt, 8, -1, 0, 7, 8);
    for trim in 9..13u8 {
        row(rt, trim, -501, -500, 500, 501);
    }
}

// Bytes that are ids, and bytes that are none.
fn ids(rt: &impl Print) {
    for id in [0, 13, 255] {
        both_of(rt, Command::Write(id, 0));
    }
    for id in [0, 1, 12, 13, 255] {
        both_of(rt, Command::Read(id));
    }
}

fn forms(rt: &impl Print, first: u8) {
    for form in [Form::Taken, Form::Failed(0x00), Form::Failed(0xFF)] {
        both(rt, Packet::Acknowledged(first, form));
    }
}

fn every_room(rt: &impl Print) {
    rooms(rt, Packet::Asked(Command::Initialise(least())));
    rooms(rt, Packet::Asked(Command::Status));
    rooms(rt, Packet::Asked(Command::Update(least())));
    rooms(rt, Packet::Asked(Command::Write(3, 900)));
    rooms(rt, Packet::Asked(Command::Read(3)));
    rooms(rt, Packet::Asked(Command::Priority));
    rooms(rt, Packet::Asked(Command::Data));
    rooms(rt, Packet::Asked(Command::Shutdown));
    rooms(rt, Packet::Acknowledged(0x96, Form::Taken));
    rooms(rt, Packet::Acknowledged(0x94, Form::Failed(0x01)))
}

pub fn all(rt: &impl Print) {
    every_room(rt);
    fields(rt);
    remainings(rt);
    parameters(rt);
    ids(rt);
    for first in [0x00, 0x8F, 0x90, 0x97, 0x9F, 0xA0, 0xFF] {
        forms(rt, first);
    }
}
