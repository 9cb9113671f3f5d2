// Every command word on a port just started: those that are accepted, by parity bit, direction, command and N.
#![tactic(auto)]

ghost use Rattle.std.specs.Prelude.{◌≡◌, true, not, []};
ghost use Rattle.tables.specs.Tables.{starts};
ghost use Rattle.tables.specs.Port.{desk, tabled, start_words, command_of};

use tables::{Tables, command, start_words};

// A command word is accepted when a port just started shows no message error after it.
fn accepted(word: u16) -> bool
    ensures { result ≡ not (command_of true word (tabled start_words (desk starts []))).words.error }
{
    let mut tables = Tables {
        five: &mut [0; 64],
        six: &mut [0; 128],
        seven: &mut [0; 64],
    };
    tables.restart();
    let mut words = start_words();
    command(&mut words, true, word, &mut tables);
    !words.error
}

// A line that could not be written has nowhere to be told: the next one is tried all the same.
// The line of a word that is accepted.
fn print(rt: &impl Print, word: u16) {
    let parity = word / 0x8000;
    let direction = if word / 0x4000 % 2 == 0 {
        "write"
    } else {
        "read"
    };
    let command = word / 0x200 % 0x20;
    let n = word % 0x200;
    let _ = println!(rt; "parity {parity} {direction} {command} N {n}");
}

// Counted where they are printed: a filter with a count would try each word twice.
fn print_all(rt: &impl Print) {
    let mut total: u32 = 0;
    for low in 0..0x8000u16 {
        for word in [low, low + 0x8000] {
            if accepted(word) {
                print(rt, word);
                total += 1;
            }
        }
    }
    let _ = println!(rt; "accepted {total} of 65536");
}

fn main(rt: HostRuntime) {
    print_all(&rt);
}
