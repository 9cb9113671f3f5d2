// The tables behind a Status, behind an accepted Initialise, and behind two more commands.
use commands::{fresh_pod, obey};
use packets::{Command, Fields};
use tables::Tables;

// A command obeyed, and the last word of each table.
fn print(
    rt: &impl Print,
    said: &str,
    done: bool,
    five: &[u16; 64],
    six: &[u16; 128],
    seven: &[u16; 64],
) {
    let done = if done { "done" } else { "not done" };
    let (five, six, seven) = (five[63], six[127], seven[63]);
    let _ = println!(rt; "{said} {done}: {five} {six} {seven}");
}

pub fn show(rt: &impl Print) {
    let fields = Fields {
        mode: 1,
        flags: 3,
        seconds: 22320,
        milliseconds: 250,
        prioritylimit: 4,
        priorityremaining: 4,
        memorylimit: 100,
        memoryremaining: 2,
        poll: 1000,
    };
    let mut pod = fresh_pod();
    let (mut five, mut six, mut seven) = ([5; 64], [6; 128], [7; 64]);
    for (said, command) in [
        ("Status", Command::Status),
        ("Initialise", Command::Initialise(fields)),
        ("Status", Command::Status),
        ("Shutdown", Command::Shutdown),
    ] {
        let mut tables = Tables {
            five: &mut five,
            six: &mut six,
            seven: &mut seven,
        };
        let done = obey(&mut pod, &mut tables, command).is_ok();
        print(rt, said, done, &five, &six, &seven);
        five[63] = five[63].wrapping_add(1);
    }
}
