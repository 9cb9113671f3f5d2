// The loop, over what is lent to it.
use crate::calls::{Call, Lent};
use crate::setup::{fill, two_words};
use rules::{Answer, Pod, Refusal};

// The last answer of so many calls.
// What it is handed goes on to each call as it is: a struct of it would be made for this one call, and taken apart in `answer`.
fn repeated(
    lent: &mut Lent,
    call: Call,
    times: usize,
    pod: &mut Pod,
    word: u16,
    bytes: &[u8],
) -> Result<Answer, Refusal> {
    let mut answer = Ok(Answer::Done);
    for turn in 0..times {
        answer = lent.answer(call, pod, word, bytes, turn);
    }
    answer
}

// The same, and the answer room. Table words have a command word before them, the first of the two that are given.
pub fn prepared(
    call: Call,
    times: usize,
    start: Pod,
    bytes: &[u8],
    room: &mut [u8; 260],
) -> Result<Answer, Refusal> {
    let mut lent = Lent {
        message: [0; 258],
        room: [0; 260],
        priority: [0; 4096],
        ordinary: [0; 32768],
        load: [0; 64],
        five: [0; 64],
        six: [7; 128],
        seven: [0; 64],
        byte: 31,
    };
    fill(&mut lent.message);
    fill(&mut lent.ordinary);
    let [first, word] = two_words(bytes);
    let mut pod = start;
    if call.is_word() {
        let _answer = lent.command(&mut pod, first);
    }
    let answer = repeated(&mut lent, call, times, &mut pod, word, bytes);
    *room = lent.room;
    answer
}
