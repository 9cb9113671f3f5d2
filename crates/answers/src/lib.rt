// What a call answers, printed.
#![tactic(auto)]

ghost use Rattle.std.specs.Prelude.{[], ◌+◌, ◌*◌, ◌≤◌, max, length};
ghost use Rattle.pipe.specs.Input.{sent_bytes};
ghost use Rattle.rules.specs.Refusals.{bytes, done, reads, said, answer_said, refusal_number};
ghost use Rattle.items.specs.Printed.{refused_line};
ghost use Rattle.rules.specs.Calls.{sent_in, framed_in};
ghost use Rattle.rules.specs.World.{frames_in};
ghost use Rattle.lines.specs.Letters.{letter_p, letter_a};
ghost use Rattle.items.specs.Output.{Written};
ghost use Rattle.answers.specs.Answers.{form, plain, listing, said_line};

use frames::Frames;
use items::{Output, front};
use pipe::Sent;
use rules::{Answer, Refusal};

// Why a call was refused.
fn put_refused(out: &mut Output<'_>, letter: u8, why: Refusal)
    requires { out.old.at + 6 ≤ length out.old.out.now }
    ensures { Written (refused_line letter (refusal_number why)) 6 out.old out.new }
{
    out.refused_line(letter, u8::from(why));
}

// What a call says, behind a letter. One that lists its bytes prints them where it is done.
fn put_line(
    out: &mut Output<'_>,
    letter: u8,
    lists: bool,
    answer: Result<Answer, Refusal>,
    bytes: &[u8],
)
    requires { out.old.at + max 7 (3 * length bytes.now + 4) ≤ length out.old.out.now }
    ensures { Written (said_line (form letter lists) (answer_said answer) bytes.now) (max 7 (3 * length bytes.now + 4)) out.old out.new }
{
    match answer {
        Ok(Answer::Done) => {
            if lists {
                out.bytes_line(letter, bytes)
            } else {
                out.bare_line(letter)
            }
        }
        Ok(Answer::Length(n)) => out.bytes_line(letter, front(bytes, n)),
        Ok(Answer::Word(word)) => out.word_line(letter, word),
        Err(why) => put_refused(out, letter, why),
    }
}

// A call that gives no bytes: done, a word, or why not.
pub fn put_answer(out: &mut Output<'_>, letter: u8, answer: Result<Answer, Refusal>)
    requires { out.old.at + 7 ≤ length out.old.out.now }
    ensures { Written (said_line (plain letter) (answer_said answer) []) 7 out.old out.new }
{
    put_line(out, letter, false, answer, &[]);
}

// A call that is done.
pub fn put_done(out: &mut Output<'_>, letter: u8, outcome: Result<(), Refusal>)
    requires { out.old.at + 7 ≤ length out.old.out.now }
    ensures { Written (said_line (plain letter) (said (λ _. done) outcome) []) 7 out.old out.new }
{
    match outcome {
        Ok(()) => out.bare_line(letter),
        Err(why) => put_refused(out, letter, why),
    }
}

// A call that gives a word.
pub fn put_word(out: &mut Output<'_>, letter: u8, word: Result<u16, Refusal>)
    requires { out.old.at + 7 ≤ length out.old.out.now }
    ensures { Written (said_line (plain letter) (said reads word) []) 7 out.old out.new }
{
    match word {
        Ok(word) => out.word_line(letter, word),
        Err(why) => put_refused(out, letter, why),
    }
}

// A packet, with its answer room.
pub fn put_packet(out: &mut Output<'_>, answer: Result<Answer, Refusal>, room: &[u8])
    requires { (length room.now ≤ 260) × (out.old.at + 784 ≤ length out.old.out.now) }
    ensures { Written (said_line (plain letter_p) (answer_said answer) room.now) 784 out.old out.new }
{
    put_line(out, b'P', false, answer, room);
}

// What the call of a packet gives.
pub fn put_count(out: &mut Output<'_>, count: Result<usize, Refusal>, room: &[u8])
    requires { (length room.now ≤ 260) × (out.old.at + 784 ≤ length out.old.out.now) }
    ensures { Written (said_line (plain letter_p) (said bytes count) room.now) 784 out.old out.new }
{
    match count {
        Ok(n) => put_packet(out, Ok(Answer::Length(n)), room),
        Err(why) => put_refused(out, b'P', why),
    }
}

// A sample set, with its two frames: AN03 and then AN47.
pub fn put_frames(out: &mut Output<'_>, answer: Result<Answer, Refusal>, frames: Frames)
    requires { out.old.at + 52 ≤ length out.old.out.now }
    ensures { Written (said_line (listing letter_a) (answer_said answer) (frames_in (answer_said answer) frames)) 52 out.old out.new }
{
    let an03 = frames.an03;
    let an47 = frames.an47;
    let mut both = [0u8; 16];
    numbers::copy(&mut both, 0, &an03);
    numbers::copy(&mut both, 8, &an47);
    put_line(out, b'A', true, answer, &both);
}

// What the call of a sample set gives.
pub fn put_framed(out: &mut Output<'_>, frames: Result<Frames, Refusal>)
    requires { out.old.at + 52 ≤ length out.old.out.now }
    ensures { Written (said_line (listing letter_a) (said (λ _. done) frames) (frames_in (said (λ _. done) frames) (framed_in frames))) 52 out.old out.new }
{
    match frames {
        Ok(frames) => put_frames(out, Ok(Answer::Done), frames),
        Err(why) => put_refused(out, b'A', why),
    }
}

// A pipe call, with what it gives.
pub fn put_sent(out: &mut Output<'_>, letter: u8, answer: Result<Answer, Refusal>, sent: Sent)
    requires { out.old.at + 28 ≤ length out.old.out.now }
    ensures { Written (said_line (listing letter) (answer_said answer) (sent_bytes sent)) 28 out.old out.new }
{
    let bytes = sent.bytes;
    put_line(out, letter, true, answer, front(&bytes, sent.count));
}

// What a pipe call gives.
pub fn put_passed(out: &mut Output<'_>, letter: u8, sent: Result<Sent, Refusal>)
    requires { out.old.at + 28 ≤ length out.old.out.now }
    ensures { Written (said_line (listing letter) (said (λ _. done) sent) (sent_bytes (sent_in sent))) 28 out.old out.new }
{
    match sent {
        Ok(sent) => put_sent(out, letter, Ok(Answer::Done), sent),
        Err(why) => put_refused(out, letter, why),
    }
}
