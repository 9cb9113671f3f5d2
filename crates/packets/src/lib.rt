// The packet port's paper side: what a packet is read as, and how each answer and each command is written. Nothing of the pod's
// state is here.
#![tactic(auto)]

mod codes;
mod reading;
mod writing;

pub use codes::{Code, UnknownCode};
pub use reading::{bounded, crc_right, read};
pub use writing::{write_command, write_data, write_done, write_error, write_status, write_value};

// The longest answer, a block's, and so the least room.
pub const ROOM: usize = 260;

// The longest command, an Initialise or an Update.
pub const COMMAND: usize = 25;

// What Initialise and Update carry.
#[derive(Clone, Copy)]
pub struct Fields {
    pub mode: u8,
    pub flags: u16,
    pub seconds: u32,
    pub milliseconds: u16,
    pub prioritylimit: u16,
    pub priorityremaining: u16,
    pub memorylimit: u32,
    pub memoryremaining: u32,
    pub poll: u16,
}

// The eight commands. Write has a parameter's id and its value, Read an id.
#[derive(Clone, Copy)]
pub enum Command {
    Initialise(Fields),
    Status,
    Update(Fields),
    Write(u8, i32),
    Read(u8),
    Priority,
    Data,
    Shutdown,
}

// What a packet is read as. An error has the packet's first byte and its number, an acknowledgement the first byte and whether
// it is the 0x01 form. Its number is no enum: `packet_read`, and the theorems over it, say the byte that the answer carries, and of an
// acknowledgement that byte and that Bool.
#[derive(Clone, Copy)]
pub enum Parsed {
    Nothing,
    Error(u8, u8),
    Acknowledgement(u8, bool),
    Asked(Command),
}

// What a status answer shows: waiting blocks of both stores, and the ids of the missing parameters.
#[derive(Clone, Copy)]
pub struct Report {
    pub mode: u8,
    pub flags: u16,
    pub priority: u16,
    pub ordinary: u32,
    pub ids: [u8; 8],
}
