// The aircraft's half at its edges: what is built into each room, what each answer is read as, and runs of sending.
//
// `Q` and `Y` are a command and an acknowledgement as the program `aircraft` has them, with the room's size, how many bytes
// are built or the refusal, and the whole room. `R` is a code and an answer, with its size and what it is read as: `-` stands
// for what is between its first three bytes and its last two. `S` is a code that is sent, with how often it may go again, and
// each `P` behind it an answer, with what it is read as, what is next, and what is then on its way.
#![tactic(auto)]

mod builds;
mod print;
mod reads;
mod sends;

fn print_all(rt: &impl Print) {
    builds::all(rt);
    reads::all(rt);
    sends::all(rt)
}

fn main(rt: HostRuntime) {
    print_all(&rt);
}
