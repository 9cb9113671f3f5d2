// Runs of sending: what came, what it was read as, what is next, and what is left on its way.
use crate::print::{After, OnItsWay, Pairs};
use airframe::Sending;

#[derive(Clone, Copy)]
enum Came {
    Silence,
    Done,
    Wrong,
    Error(u8),
}

use Came::{Done, Error, Silence, Wrong};

fn answered(rt: &impl Print, sending: Sending, head: [u8; 3]) -> Sending {
    let [code, second, third] = head;
    let [high, low] = crc::crc_of(&head).to_be_bytes();
    let answer = [code, second, third, high, low];
    let heard = sending.reply(&answer);
    let _ = println!(rt; "P{} ={}", Pairs(&answer), After(heard, &answer));
    heard.sending
}

fn go_on(rt: &impl Print, sending: Sending, code: u8, what: Came) -> Sending {
    match what {
        Silence => {
            let heard = sending.silence();
            let _ = println!(rt; "P - ={}", After(heard, b""));
            heard.sending
        }
        Done => answered(rt, sending, [code, 0x01, 0x7E]),
        Wrong => answered(rt, sending, [code, 0x01, 0x7F]),
        Error(error) => answered(rt, sending, [code, 0x09, error]),
    }
}

fn run(rt: &impl Print, code: u8, each: [Came; 6]) {
    let mut sending = Sending::sent(code);
    let _ = println!(rt; "S{}", OnItsWay(sending));
    for what in each {
        sending = go_on(rt, sending, code, what);
    }
}

pub fn all(rt: &impl Print) {
    run(
        rt,
        0x90,
        [Done, Silence, Error(0x01), Wrong, Error(0x38), Done],
    );
    run(
        rt,
        0x9F,
        [Silence, Silence, Silence, Silence, Silence, Done],
    );
    run(
        rt,
        0x90,
        [
            Error(0x01),
            Error(0x01),
            Error(0x01),
            Error(0x01),
            Error(0x01),
            Done,
        ],
    );
    run(rt, 0x93, [Wrong, Wrong, Wrong, Wrong, Wrong, Done]);
    run(rt, 0x9F, [Silence, Error(0x01), Wrong, Done, Silence, Done]);
    run(
        rt,
        0x92,
        [
            Wrong,
            Error(0x01),
            Silence,
            Error(0x01),
            Error(0x38),
            Silence,
        ],
    );
    run(
        rt,
        0x96,
        [Error(0x01), Silence, Done, Error(0x38), Done, Silence],
    );
    run(rt, 0x97, [Done, Silence, Error(0x38), Done, Done, Silence])
}
