// A packet is read: checks 1 to 6.
ghost use Rattle.std.specs.Prelude.{◌≡◌, ◌≤◌, length};
ghost use Rattle.packets.specs.Commands.{fields_in, fields_bounded, code_row, parsed_said};
ghost use Rattle.packets.specs.Codes.{code_number};
ghost use Rattle.packets.specs.Reading.{crc_right, acknowledges, packet_read};

use crate::{Code, Command, Fields, Parsed};
use numbers::{four_at, signed, two_at};

// The errors of checks 2, 4, 5 and 6.
const TOO_SHORT: u8 = 0x01;

const DAMAGED: u8 = 0x01;

const UNKNOWN: u8 = 0x02;

const WRONG_SECOND: u8 = 0x3C;

const WRONG_LENGTH: u8 = 0x01;

// Whether fields are within their bounds.
#[tactic(auto, unfolding(crate::specs::Commands::fields_bounded))]
pub fn bounded(f: Fields) -> bool
    ensures { result ≡ fields_bounded f }
{
    (f.mode <= 3)
        & (f.milliseconds <= 999)
        & (f.priorityremaining <= f.prioritylimit)
        & (f.memoryremaining <= f.memorylimit)
        & (1 <= f.poll)
        & (f.poll <= 60000)
}

// The fields of an Initialise or an Update.
#[tactic(auto, using(numbers::proofs::Digits::one_number), unfolding(crate::specs::Commands::fields_in, crate::specs::Commands::fields_of, numbers::specs::Layout::numbers_at))]
fn fields_in(packet: &[u8]) -> Fields
    requires { 23 ≤ length packet.now }
    ensures { result ≡ fields_in packet.now }
{
    let time = four_at(packet, 5);
    Fields {
        mode: packet[2],
        flags: two_at(packet, 3),
        seconds: time / 1024,
        milliseconds: (time % 1024) as u16,
        prioritylimit: two_at(packet, 9),
        priorityremaining: two_at(packet, 11),
        memorylimit: four_at(packet, 13),
        memoryremaining: four_at(packet, 17),
        poll: two_at(packet, 21),
    }
}

// The command in a packet that has the length of its code.
#[tactic(auto, unfolding(crate::specs::Codes::code_number, crate::specs::Commands::code_row, crate::specs::Commands::find_in))]
fn command_in(code: Code, packet: &[u8]) -> Command
    requires { length packet.now ≡ (code_row (code_number code)).bytes }
    ensures { result ≡ (code_row (code_number code)).command packet.now }
{
    match code {
        Code::Initialise => Command::Initialise(fields_in(packet)),
        Code::Status => Command::Status,
        Code::Update => Command::Update(fields_in(packet)),
        Code::Write => Command::Write(packet[2], signed(four_at(packet, 3))),
        Code::Read => Command::Read(packet[2]),
        Code::Priority => Command::Priority,
        Code::Data => Command::Data,
        Code::Shutdown => Command::Shutdown,
    }
}

// Whether the last two bytes are the CRC of those before them.
#[tactic(auto, unfolding(crate::specs::Reading::crc_right))]
pub fn crc_right(packet: &[u8]) -> bool
    requires { 2 ≤ length packet.now }
    ensures { result ≡ crc_right packet.now }
{
    let end = packet.len() - 2;
    crc::crc_of(&packet[..end]) == two_at(packet, end)
}

// Whether a packet has the acknowledgement form. Its first byte is in document 01's range, 0x90 to 0x9F (`acknowledges`), where some bytes
// are no `Code`.
#[tactic(auto, unfolding(crate::specs::Reading::acknowledges))]
fn is_acknowledgement(packet: &[u8]) -> bool
    ensures { result ≡ acknowledges packet.now }
{
    let &[first, second, third, _, _] = packet else {
        return false;
    };
    crc_right(packet)
        & (0x90 <= first)
        & (first <= 0x9F)
        & (((second == 0x01) & (third == 0x7E)) | (second == 0x09))
}

// What a packet is: checks 1 to 6, each with its own way out.
#[tactic(auto, using(crate::proofs::Checks::checks))]
pub fn read(packet: &[u8]) -> Parsed
    ensures { parsed_said result ≡ parsed_said (packet_read packet.now) }
{
    let Some(&first) = packet.first() else {
        return Parsed::Nothing;
    };
    if packet.len() < 4 {
        return Parsed::Error(first, TOO_SHORT);
    }
    let second = packet[1];
    if !crc_right(packet) {
        return Parsed::Error(first, DAMAGED);
    }
    if is_acknowledgement(packet) {
        return Parsed::Acknowledgement(first, second == 0x01);
    }
    let Ok(code) = Code::try_from(first) else {
        return Parsed::Error(first, UNKNOWN);
    };
    if second != 0x01 {
        return Parsed::Error(first, WRONG_SECOND);
    }
    if packet.len() != code.length() {
        return Parsed::Error(first, WRONG_LENGTH);
    }
    Parsed::Asked(command_in(code, packet))
}
