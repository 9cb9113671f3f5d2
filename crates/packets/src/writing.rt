// An answer or a command is written into the room: its first two bytes, the body into the room's part from byte 2 on, and the CRC
// of all that. The room stays a slice with a clause on its length, and so does a block: the C interface lends a room of any length from
// the least on, of which a short answer needs less, and a block is a part of its store.
ghost use Rattle.std.specs.Prelude.{◌≡◌, [], ◌∷◌, ◌+◌, ◌*◌, ◌%◌, ◌≤◌, length, take};
ghost use Rattle.std.proofs.lemmas.List.Edits.{sets};
ghost use Rattle.crc.specs.Crc.{crc_of};
ghost use Rattle.numbers.specs.Numbers.{high_first};
ghost use Rattle.packets.specs.Codes.{code_number};
ghost use Rattle.packets.specs.Answers.{Written, answer_of, error_answer, done_answer, status_body, status_answer, value_body, value_answer, data_answer, field_bytes, command_bytes};

use crate::{Code, Command, Fields, Report};
use numbers::{copy, put, unsigned};

// The CRC of the first `end` bytes goes behind them; the answer's length.
#[tactic(auto, using(numbers::proofs::Digits::library_bytes))]
fn close(room: &mut [u8], end: usize) -> usize
    requires { end + 2 ≤ length room.old }
    ensures { (room.new ≡ sets room.old end (high_first 2 (crc_of (take end room.old)))) × (result ≡ end + 2) }
{
    let crc = crc::crc_of(&room[..end]);
    put(room, end, crc.to_be_bytes());
    end + 2
}

#[tactic(auto, using(numbers::proofs::Digits::library_bytes), unfolding(crate::specs::Answers::status_body, numbers::specs::Numbers::high_first))]
fn status_body(body: &mut [u8], report: Report)
    requires { 18 ≤ length body.old }
    ensures { body.new ≡ sets body.old 0 (status_body report) }
{
    put(body, 0, [report.mode]);
    put(body, 1, report.flags.to_be_bytes());
    put(body, 3, report.priority.to_be_bytes());
    put(body, 5, report.ordinary.to_be_bytes());
    put(body, 9, [0]);
    put(body, 10, report.ids);
}

#[tactic(auto, using(numbers::proofs::Digits::library_bytes), unfolding(crate::specs::Answers::value_body))]
fn value_body(body: &mut [u8], id: u8, value: i32)
    requires { 5 ≤ length body.old }
    ensures { body.new ≡ sets body.old 0 (value_body id value) }
{
    put(body, 0, [id]);
    put(body, 1, unsigned(value).to_be_bytes());
}

// The answers and the command whose body is one byte.
fn short(room: &mut [u8], first: u8, second: u8, third: u8) -> usize
    requires { 5 ≤ length room.old }
    ensures { Written (answer_of first second (third ∷ [])) room.old room.new result }
{
    put(room, 0, [first, second]);
    put(&mut room[2..], 0, [third]);
    close(room, 3)
}

// An error's answer.
#[tactic(auto, unfolding(crate::specs::Answers::error_answer))]
pub fn write_error(room: &mut [u8], first: u8, number: u8) -> usize
    requires { 5 ≤ length room.old }
    ensures { Written (error_answer first number) room.old room.new result }
{
    short(room, first, 0x09, number)
}

// The answer of a type 1 command that is done.
#[tactic(auto, unfolding(crate::specs::Answers::done_answer))]
pub fn write_done(room: &mut [u8], first: u8) -> usize
    requires { 5 ≤ length room.old }
    ensures { Written (done_answer first) room.old room.new result }
{
    short(room, first, 0x01, 0x7E)
}

pub fn write_status(room: &mut [u8], first: u8, report: Report) -> usize
    requires { 260 ≤ length room.old }
    ensures { Written (status_answer first report) room.old room.new result }
{
    put(room, 0, [first, 0x01]);
    status_body(&mut room[2..], report);
    close(room, 20)
}

// A parameter's value, as it is answered and as it is written.
pub fn write_value(room: &mut [u8], first: u8, id: u8, value: i32) -> usize
    requires { 9 ≤ length room.old }
    ensures { Written (value_answer first id value) room.old room.new result }
{
    put(room, 0, [first, 0x01]);
    value_body(&mut room[2..], id, value);
    close(room, 7)
}

// A block.
pub fn write_data(room: &mut [u8], first: u8, block: &[u8]) -> usize
    requires in_bounds { 260 ≤ length room.old }
    requires block_len { length block.now ≡ 256 }
    ensures { Written (data_answer first block.now) room.old room.new result }
{
    put(room, 0, [first, 0x01]);
    copy(&mut room[2..], 0, block);
    close(room, 258)
}

// The time of the fields, of which four bytes are sent.
fn time(f: Fields) -> u32
    ensures { result ≡ (f.seconds * 1024 + f.milliseconds) % 0x1_0000_0000 }
{
    ((u64::from(f.seconds) * 1024 + u64::from(f.milliseconds)) % 0x1_0000_0000) as u32
}

#[tactic(auto, using(numbers::proofs::Digits::library_bytes), unfolding(crate::specs::Answers::field_bytes, numbers::specs::Layout::laid_out, numbers::specs::Numbers::high_first))]
fn fields_body(body: &mut [u8], f: Fields)
    requires { 21 ≤ length body.old }
    ensures { body.new ≡ sets body.old 0 (field_bytes f) }
{
    put(body, 0, [f.mode]);
    put(body, 1, f.flags.to_be_bytes());
    put(body, 3, time(f).to_be_bytes());
    put(body, 7, f.prioritylimit.to_be_bytes());
    put(body, 9, f.priorityremaining.to_be_bytes());
    put(body, 11, f.memorylimit.to_be_bytes());
    put(body, 15, f.memoryremaining.to_be_bytes());
    put(body, 19, f.poll.to_be_bytes());
}

// The commands that carry fields.
fn with_fields(room: &mut [u8], code: Code, f: Fields) -> usize
    requires { 25 ≤ length room.old }
    ensures { Written (answer_of (code_number code) 0x01 (field_bytes f)) room.old room.new result }
{
    put(room, 0, [u8::from(code), 0x01]);
    fields_body(&mut room[2..], f);
    close(room, 23)
}

// The commands that carry nothing.
fn bare(room: &mut [u8], code: Code) -> usize
    requires { 4 ≤ length room.old }
    ensures { Written (answer_of (code_number code) 0x01 []) room.old room.new result }
{
    put(room, 0, [u8::from(code), 0x01]);
    close(room, 2)
}

// A command's packet; how many bytes it has.
#[tactic(auto, unfolding(crate::specs::Codes::code_number, crate::specs::Answers::command_bytes, crate::specs::Answers::body_of, crate::specs::Answers::value_answer, crate::specs::Commands::command_row, crate::specs::Commands::command_place))]
pub fn write_command(room: &mut [u8], command: Command) -> usize
    requires { 25 ≤ length room.old }
    ensures { Written (command_bytes command) room.old room.new result }
{
    match command {
        Command::Initialise(f) => with_fields(room, Code::Initialise, f),
        Command::Status => bare(room, Code::Status),
        Command::Update(f) => with_fields(room, Code::Update, f),
        Command::Write(id, value) => write_value(room, u8::from(Code::Write), id, value),
        Command::Read(id) => short(room, u8::from(Code::Read), 0x01, id),
        Command::Priority => bare(room, Code::Priority),
        Command::Data => bare(room, Code::Data),
        Command::Shutdown => bare(room, Code::Shutdown),
    }
}
