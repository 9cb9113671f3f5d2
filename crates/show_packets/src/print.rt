// Packets, fields and answers as lines of text.
use packets::{Command, Fields, Parsed};
use std::fmt::{Display, Formatter};
use std::{fmt, io};

// Bytes as pairs of digits, a space before each.
#[derive(Clone, Copy)]
struct Pairs<'a>(&'a [u8]);

impl Display for Pairs<'_> {
    fn fmt<W: fmt::Write>(&self, f: &mut Formatter<W>) -> fmt::Result {
        for b in self.0 {
            write!(f, " {b:02X}")?;
        }
        Ok(())
    }
}

// The nine fields, and whether they are in bounds.
#[derive(Clone, Copy)]
struct Listed(Fields);

impl Display for Listed {
    fn fmt<W: fmt::Write>(&self, f: &mut Formatter<W>) -> fmt::Result {
        let Fields {
            mode,
            flags,
            seconds,
            milliseconds,
            prioritylimit,
            priorityremaining,
            memorylimit,
            memoryremaining,
            poll,
        } = self.0;
        write!(f, " {mode} {flags} {seconds} {milliseconds}")?;
        write!(f, " {prioritylimit} {priorityremaining}")?;
        write!(f, " {memorylimit} {memoryremaining} {poll}")?;
        if packets::bounded(self.0) {
            write!(f, " in bounds")
        } else {
            write!(f, " out of bounds")
        }
    }
}

// A parameter's value as an answer shows it, and its sign.
#[derive(Clone, Copy)]
struct Value(u8, i32);

impl Display for Value {
    fn fmt<W: fmt::Write>(&self, f: &mut Formatter<W>) -> fmt::Result {
        let Value(id, v) = *self;
        let mut room = [0u8; 9];
        packets::write_value(&mut room, 0x94, id, v);
        write!(f, "{}", Pairs(&room[2..7]))?;
        if v < 0 {
            write!(f, " below 0")?;
        }
        Ok(())
    }
}

#[derive(Clone, Copy)]
struct Named(Command);

impl Display for Named {
    fn fmt<W: fmt::Write>(&self, f: &mut Formatter<W>) -> fmt::Result {
        match self.0 {
            Command::Initialise(fields) => write!(f, "initialise{}", Listed(fields)),
            Command::Status => write!(f, "status"),
            Command::Update(fields) => write!(f, "update{}", Listed(fields)),
            Command::Write(id, v) => write!(f, "write{}", Value(id, v)),
            Command::Read(id) => write!(f, "read {id:02X}"),
            Command::Priority => write!(f, "priority"),
            Command::Data => write!(f, "data"),
            Command::Shutdown => write!(f, "shutdown"),
        }
    }
}

#[derive(Clone, Copy)]
struct Meaning(Parsed);

impl Display for Meaning {
    fn fmt<W: fmt::Write>(&self, f: &mut Formatter<W>) -> fmt::Result {
        match self.0 {
            Parsed::Nothing => write!(f, "nothing"),
            Parsed::Error(first, number) => write!(f, "error {first:02X} {number:02X}"),
            Parsed::Acknowledgement(first, true) => write!(f, "acknowledgement {first:02X} 01"),
            Parsed::Acknowledgement(first, false) => write!(f, "acknowledgement {first:02X} 09"),
            Parsed::Asked(command) => write!(f, "{}", Named(command)),
        }
    }
}

// A line that could not be written has nowhere to be told: the next one is tried all the same.
// A packet and what it is read as.
pub fn show(rt: &impl Print, packet: &[u8]) {
    let _ = println!(rt; "P{} = {}", Pairs(packet), Meaning(packets::read(packet)));
}

pub fn line_of(rt: &impl Print, f: Fields) {
    let _ = println!(rt; "fields{}", Listed(f));
}

// An answer's length, and the room, of which the rest is kept.
pub fn answer(rt: &impl Print, n: usize, room: &[u8]) {
    let _ = println!(rt; "answer {n} :{}", Pairs(room));
}
