// An answer is read, by the code of the command that it answers.
ghost use Rattle.std.specs.Prelude.{◌≡◌, ◌≤◌, ◌-◌, length, take, drop};
ghost use Rattle.packets.specs.Codes.{code_number};
ghost use Rattle.airframe.specs.Reading.{answer_right, block_in, ids_in, report_in, request_in, shown_report, read_as, meaning_said};

use crate::{Meaning, Refusal, Shown};
use numbers::{four_at, signed, two_at};
use packets::Code;

// Whether an answer to a command has its CRC, its first two bytes, the length that these call for, and 0x7E where that is due. None
// is shorter than 5 bytes, and a success of 5 is that of a type 1 command.
fn right(code: Code, answer: &[u8]) -> bool
    ensures { result ≡ answer_right (code_number code) answer.now }
{
    if answer.len() < 5 {
        return false;
    }
    let due = code.answer();
    let second = answer[1];
    let failed = (second == 0x09) & (answer.len() == 5);
    let done = (second == 0x01) & (answer.len() == due) & ((due != 5) | (answer[2] == 0x7E));
    packets::crc_right(answer) & (answer[0] == u8::from(code)) & (failed | done)
}

// What a status answer shows.
#[tactic(auto, unfolding(crate::specs::Reading::report_in, crate::specs::Reading::request_in))]
fn status_in(answer: &[u8]) -> Shown
    requires { 22 ≤ length answer.now }
    ensures { (shown_report result (ids_in answer.now) ≡ report_in answer.now) × (result.request ≡ request_in answer.now) }
{
    Shown {
        mode: answer[2],
        flags: two_at(answer, 3),
        priority: two_at(answer, 5),
        ordinary: four_at(answer, 7),
        request: answer[11],
    }
}

// What an answer means.
// The code is a byte and no `Code`: `read_as` has an answer for each number, and to one that is no code every answer is wrong.
pub fn read(code: u8, answer: &[u8]) -> Result<Meaning, Refusal>
    ensures { meaning_said result answer.now ≡ read_as code answer.now }
{
    let code = Code::try_from(code)?;
    if !right(code, answer) {
        return Err(Refusal::Wrong);
    }
    if answer[1] == 0x09 {
        return Ok(Meaning::Error(answer[2]));
    }
    Ok(match code {
        Code::Status => Meaning::State(status_in(answer)),
        Code::Read => Meaning::Value(answer[2], signed(four_at(answer, 3))),
        Code::Priority | Code::Data => Meaning::Block,
        Code::Initialise | Code::Update | Code::Write | Code::Shutdown => Meaning::Done,
    })
}

// The bytes from one place to another, as many as there are.
fn part(answer: &[u8], start: usize, end: usize) -> &[u8]
    requires { start ≤ end }
    ensures { result.now ≡ take (end - start) (drop start answer.now) }
{
    let end = end.min(answer.len());
    &answer[start.min(end)..end]
}

// The block that an answer brings.
#[tactic(auto, unfolding(crate::specs::Reading::block_in))]
pub fn block(answer: &[u8]) -> &[u8]
    ensures { result.now ≡ block_in answer.now }
{
    part(answer, 2, 258)
}

// The ids that a status answer shows.
#[tactic(auto, unfolding(crate::specs::Reading::ids_in))]
pub fn ids(answer: &[u8]) -> &[u8]
    ensures { result.now ≡ ids_in answer.now }
{
    part(answer, 12, 20)
}
