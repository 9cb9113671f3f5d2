// The aircraft's half at a desk: a line builds a packet or gives an answer, and the packet or what the answer means.
#![tactic(auto)]

fn main(rt: HostRuntime) {
    aircraft_loop::play(&rt);
}
