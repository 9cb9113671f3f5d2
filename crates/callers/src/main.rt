// Callers of what no other program calls: a command obeyed with the tables lent, numbers of one's own, and lines answered behind a heading.
#![tactic(auto)]

mod below;
mod lengths;
mod restarts;

fn main(rt: HostRuntime) {
    restarts::show(&rt);
    below::show();
    lengths::show(&rt);
}
