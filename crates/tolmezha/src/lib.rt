// The aircraft's half for programs in C: what `airframe` and `crc` have, in numbers, slices and arrays.
#![tactic(auto)]

mod building;
mod reading;
mod steps;

ghost use Rattle.std.specs.Prelude.{◌≡◌};
ghost use Rattle.rows.specs.Rows.{out};
ghost use Rattle.crc.specs.Crc.{crc_of};
ghost use Rattle.packets.specs.declared.Command.TheVariants as command;
ghost use Rattle.airframe.specs.declared.Form.TheVariants.{Taken, Failed};
ghost use Rattle.airframe.specs.Given.{fields_nine};
ghost use Rattle.airframe.specs.Reading.{read_as};
ghost use Rattle.airframe.specs.Sending as sending;
ghost use Rattle.tolmezha.specs.Numbers.{command_answered, acknowledgement_answered, read_answered, block_answered, sent_answered, step_answered, told, told_of};

use airframe::{Form, Sending};
use packets::Command;

// What a function returns that refuses.
pub const OUTSIDE: i32 = -20; // a field, an id, a value, a code or an error byte is outside its bounds

pub const WRONG: i32 = -23; // the answer is wrong for its command

pub const SMALL: i32 = -24; // the room has fewer than 25 bytes

// The room that holds every command and acknowledgement, in bytes.
pub const ROOM: usize = 25;

// The places of the nine fields.
pub const MODE: usize = 0;

pub const FLAGS: usize = 1;

pub const SECONDS: usize = 2;

pub const MILLISECONDS: usize = 3;

pub const PRIORITY_LIMIT: usize = 4;

pub const PRIORITY_REMAINING: usize = 5;

pub const MEMORY_LIMIT: usize = 6;

pub const MEMORY_REMAINING: usize = 7;

pub const POLL: usize = 8;

// The longest answer, in bytes; and how many values there are.
pub const ANSWER: usize = 260;

pub const VALUES: usize = 13;

// The kinds of answers. Behind each: which of its values are set, in their order.
pub const DONE: i32 = 0; // none

pub const ERROR: i32 = 1; // the error byte

pub const STATUS: i32 = 2; // mode, flags, priority blocks waiting, ordinary blocks waiting, request, eight ids

pub const VALUE: i32 = 3; // the parameter's id, its value

pub const BLOCK: i32 = 4; // none: the 256 bytes are in the answer, and tolmezha_block copies them

// The places of a status among the values.
pub const STATUS_MODE: usize = 0;

pub const STATUS_FLAGS: usize = 1;

pub const STATUS_PRIORITY: usize = 2; // priority blocks waiting

pub const STATUS_ORDINARY: usize = 3; // ordinary blocks waiting

pub const STATUS_REQUEST: usize = 4;

pub const STATUS_IDS: usize = 5; // the first of eight

// The steps of a sending.
pub const IDLE: i32 = 0; // nothing was on its way

pub const ENDED: i32 = 1; // the command was answered, be it with an error

pub const AGAIN: i32 = 2; // send the same bytes again

pub const LOST: i32 = 3; // the pod is lost

// The CRC of some bytes, 0 to 0xFFFF. A message with its CRC behind it, high byte first, has the CRC 0.
#[unsafe(no_mangle)]
pub extern "C" fn tolmezha_crc(bytes: &[u8]) -> u32
    ensures { result ≡ crc_of bytes.now }
{
    u32::from(crc::crc_of(bytes))
}

// Builds an Initialise of the nine fields from the start of the room on, and keeps the rest of the room. Returns how many bytes it
// built; OUTSIDE where a field is outside its bounds, else SMALL where the room is too small, and keeps the whole room then.
#[unsafe(no_mangle)]
pub extern "C" fn tolmezha_initialise(fields: &[u32; 9], room: &mut [u8]) -> i32
    ensures { out result tt room.new ≡ command_answered (command.Initialise (fields_nine fields.now)) room.old }
{
    let Some(fields) = building::nine(*fields) else {
        return OUTSIDE;
    };
    building::command(Command::Initialise(fields), room)
}

// Builds an Update of the nine fields, and returns and keeps what tolmezha_initialise does.
#[unsafe(no_mangle)]
pub extern "C" fn tolmezha_update(fields: &[u32; 9], room: &mut [u8]) -> i32
    ensures { out result tt room.new ≡ command_answered (command.Update (fields_nine fields.now)) room.old }
{
    let Some(fields) = building::nine(*fields) else {
        return OUTSIDE;
    };
    building::command(Command::Update(fields), room)
}

// Builds a Status. Returns how many bytes it built from the start of the room on; SMALL where the room is too small. Keeps the rest of
// the room, or the whole of it.
#[unsafe(no_mangle)]
pub extern "C" fn tolmezha_status(room: &mut [u8]) -> i32
    ensures { out result tt room.new ≡ command_answered command.Status room.old }
{
    building::command(Command::Status, room)
}

// Builds a Parameter write, and returns and keeps what tolmezha_initialise does. OUTSIDE: the id is not 1 to 12, or the value is outside
// that parameter's bounds. That parameter 1 stays below parameter 2 only the pod judges.
#[unsafe(no_mangle)]
pub extern "C" fn tolmezha_parameter_write(id: u32, value: i32, room: &mut [u8]) -> i32
    ensures { out result tt room.new ≡ command_answered (command.Write id value) room.old }
{
    let Ok(id) = u8::try_from(id) else {
        return OUTSIDE;
    };
    building::command(Command::Write(id, value), room)
}

// Builds a Parameter read, and returns and keeps what tolmezha_initialise does. OUTSIDE: the id is not 1 to 12.
#[unsafe(no_mangle)]
pub extern "C" fn tolmezha_parameter_read(id: u32, room: &mut [u8]) -> i32
    ensures { out result tt room.new ≡ command_answered (command.Read id) room.old }
{
    let Ok(id) = u8::try_from(id) else {
        return OUTSIDE;
    };
    building::command(Command::Read(id), room)
}

// Builds a Priority data, which asks for the oldest priority block, and returns and keeps what tolmezha_status does.
#[unsafe(no_mangle)]
pub extern "C" fn tolmezha_priority_data(room: &mut [u8]) -> i32
    ensures { out result tt room.new ≡ command_answered command.Priority room.old }
{
    building::command(Command::Priority, room)
}

// Builds a Data, which asks for the oldest ordinary block, and returns and keeps what tolmezha_status does.
#[unsafe(no_mangle)]
pub extern "C" fn tolmezha_data(room: &mut [u8]) -> i32
    ensures { out result tt room.new ≡ command_answered command.Data room.old }
{
    building::command(Command::Data, room)
}

// Builds a Shutdown, and returns and keeps what tolmezha_status does.
#[unsafe(no_mangle)]
pub extern "C" fn tolmezha_shutdown(room: &mut [u8]) -> i32
    ensures { out result tt room.new ≡ command_answered command.Shutdown room.old }
{
    building::command(Command::Shutdown, room)
}

// Builds the acknowledgement of an answer that was received: the command's code, 0x01 and 0x7E. To that of a block the pod drops it.
// Returns and keeps what tolmezha_initialise does. OUTSIDE: the code is not 0x90 to 0x9F.
#[unsafe(no_mangle)]
pub extern "C" fn tolmezha_taken(code: u32, room: &mut [u8]) -> i32
    ensures { out result tt room.new ≡ acknowledgement_answered code Taken room.old }
{
    let Ok(code) = u8::try_from(code) else {
        return OUTSIDE;
    };
    building::acknowledgement(code, Form::Taken, room)
}

// Builds the acknowledgement of an answer that was not: the command's code, 0x09 and an error byte of the caller's. The pod keeps the
// block then. Returns and keeps what tolmezha_initialise does. OUTSIDE: the code is not 0x90 to 0x9F, or the error byte is over 0xFF.
#[unsafe(no_mangle)]
pub extern "C" fn tolmezha_failed(code: u32, error: u32, room: &mut [u8]) -> i32
    ensures { out result tt room.new ≡ acknowledgement_answered code (Failed error) room.old }
{
    let Ok(code) = u8::try_from(code) else {
        return OUTSIDE;
    };
    let Ok(error) = u8::try_from(error) else {
        return OUTSIDE;
    };
    building::acknowledgement(code, Form::Failed(error), room)
}

// Reads an answer to the command of that code. Returns its kind and sets that kind's values from the first place on; WRONG where the
// answer is wrong for the command, or the code is no command's. Keeps the values that it doesn't set.
#[unsafe(no_mangle)]
pub extern "C" fn tolmezha_read(code: u32, answer: &[u8], values: &mut [i64; 13]) -> i32
    ensures { out result tt values.new ≡ read_answered (read_as code answer.now) values.old }
{
    reading::put(airframe::read(reading::byte(code), answer), answer, values)
}

// Copies the block out of an answer of kind BLOCK: bytes 2 to 257 of it. Returns how many bytes it copied, which is 256 for such an
// answer, and as many as there are for a shorter one; keeps the rest of the block.
#[unsafe(no_mangle)]
pub extern "C" fn tolmezha_block(answer: &[u8], block: &mut [u8; 256]) -> i32
    ensures { out result tt block.new ≡ block_answered answer.now block.old }
{
    let part = airframe::block(answer);
    numbers::copy(block, 0, part);
    part.len() as i32
}

// A command of that code was sent for the first time: the state becomes the code, and 4. Returns 0; OUTSIDE where the code is over
// 0xFF, and keeps the state then. The second number of a state is how many sends there are with the one under way, 1 to 4. With 0 or
// more than 4, or a code over 0xFF, nothing is on its way.
#[unsafe(no_mangle)]
pub extern "C" fn tolmezha_sent(code: u32, state: &mut [u32; 2]) -> i32
    ensures { out result tt state.new ≡ sent_answered code state.old }
{
    let Ok(code) = u8::try_from(code) else {
        return OUTSIDE;
    };
    *state = steps::state_of(Sending::sent(code));
    0
}

// No reply came in time. Returns the step, AGAIN three times and then LOST, and leaves in the state what is on its way then. Where
// nothing is on its way the state is kept.
#[unsafe(no_mangle)]
pub extern "C" fn tolmezha_silence(state: &mut [u32; 2]) -> i32
    ensures { out result tt state.new ≡ step_answered sending.silence state.old }
{
    let before = steps::sending_in(*state);
    let heard = before.silence();
    steps::leave(before, heard.sending, state);
    steps::step_of(heard.step)
}

// An answer came. Returns the step and leaves in the state what is on its way then: a wrong answer and error 0x01 use up a send, as
// silence does, and any other is ENDED. Sets kind to what tolmezha_read returns for it and the state's code, and the values as that
// does. Where nothing is on its way the answer is not read, and state, kind and values are kept.
#[unsafe(no_mangle)]
pub extern "C" fn tolmezha_reply(
    state: &mut [u32; 2],
    answer: &[u8],
    kind: &mut i32,
    values: &mut [i64; 13],
) -> i32
    ensures { told result kind.new values.new state.new ≡ told_of (sending.answer answer.now) kind.old values.old state.old }
{
    let before = steps::sending_in(*state);
    let heard = before.reply(answer);
    steps::put_reply(heard.reply, answer, kind, values);
    steps::leave(before, heard.sending, state);
    steps::step_of(heard.step)
}
