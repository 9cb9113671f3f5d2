// Prints the two frames at their corners, a line of sixteen bytes each: samples, flags, self-check numbers and timeouts
// of both halves of the pipe.
// `over` stands for samples that are not bounded. tests/show_frames.py works the same lines out from the papers.
#![tactic(auto)]

ghost use Rattle.std.specs.Prelude.{◌<◌};

use frames::Frames;
use pipe::{Input, Output, Pipe};
use std::io;
use std::io::Write;

// A line that could not be written has nowhere to be told: the next one is tried all the same.
// Writes the two frames as a line: pairs of digits, a space after each but the last.
fn write(rt: &impl Print, f: Frames) {
    let mut line = [b' '; 48];
    for (place, b) in line.chunks_exact_mut(3).zip(f.an03.iter().chain(&f.an47)) {
        let pair = hexes::byte(*b);
        place[0] = pair[0];
        place[1] = pair[1];
    }
    line[47] = b'\n';
    let _ = io::writer(rt).write_all(&line);
}

// Writes the frames of these samples. What the frames ask of a caller is tested here, as the pod does.
fn show(rt: &impl Print, samples: &[u16; 128], pipe: Pipe, initialised: bool, selfcheck: u8) {
    if pipe.input.timeouts > 15 || pipe.output.timeouts > 15 || selfcheck > 31 {
        return;
    }
    if frames::bounded(samples) {
        write(
            rt,
            frames::two_frames(samples, pipe, initialised, selfcheck),
        )
    } else {
        let _ = println!(rt; "over");
    }
}

// Frames with nothing in hand, and frames with nothing gathered.
// Two functions, since each is handed one half of the pipe and has the other fresh.
fn from_camera(rt: &impl Print, input: Input) {
    let output = Output::fresh();
    show(rt, &[0; 128], Pipe { input, output }, false, 0)
}

fn to_camera(rt: &impl Print, output: Output) {
    let input = Input::fresh();
    show(rt, &[0; 128], Pipe { input, output }, false, 0)
}

// All samples 0, and sample k at v.
fn alone(k: usize, v: u16) -> [u16; 128]
    requires { k < 128 }
{
    let mut samples = [0u16; 128];
    samples[k] = v;
    samples
}

// All samples 0, and those of channel c at 1,023.
fn channel(c: usize) -> [u16; 128]
    requires { c < 8 }
{
    let mut samples = [0u16; 128];
    for pass in samples.chunks_exact_mut(8) {
        pass[c] = 1023;
    }
    samples
}

// Each channel by itself at 1,023.
fn channels(rt: &impl Print) {
    for c in 0..8usize {
        show(rt, &channel(c), Pipe::fresh(), false, 0);
    }
}

// Each sample by itself at v.
fn samples(rt: &impl Print, v: u16) {
    for k in 0..128usize {
        show(rt, &alone(k, v), Pipe::fresh(), false, 0);
    }
}

// Each self-check number.
fn checks(rt: &impl Print) {
    for n in 0..32u8 {
        show(rt, &[0; 128], Pipe::fresh(), false, n);
    }
}

// After each of eight bytes.
fn bytes(rt: &impl Print) {
    let mut input = Input::fresh();
    for b in 0..8u8 {
        if input.gathered > 7 {
            return;
        }
        let piped = input.byte(b);
        input = piped.input;
        from_camera(rt, input);
    }
}

// After each of sixteen timeouts with a byte before it.
fn timeouts(rt: &impl Print) {
    let mut input = Input::fresh();
    for b in 0..16u8 {
        if input.gathered > 7 {
            return;
        }
        let gathered = input.byte(b);
        if gathered.input.gathered > 7 {
            return;
        }
        let piped = gathered.input.timeout();
        input = piped.input;
        from_camera(rt, input);
    }
}

// A packet, and after each of nine bytes taken.
fn takes(rt: &impl Print) {
    let handed = Output::fresh().packet([1, 2, 3, 4, 5, 6, 7, 8]);
    let mut output = handed.output;
    to_camera(rt, output);
    for _ in 0..9u8 {
        if output.hand > 8 {
            return;
        }
        let handed = output.taken();
        output = handed.output;
        to_camera(rt, output);
    }
}

// After each of sixteen packets that were dropped.
fn drops(rt: &impl Print) {
    let mut output = Output::fresh();
    for b in 0..16u8 {
        let handed = output.packet([b; 8]);
        output = handed.output.timeout();
        to_camera(rt, output);
    }
}

fn print_all(rt: &impl Print) {
    show(rt, &[0; 128], Pipe::fresh(), false, 0);
    show(rt, &[1023; 128], Pipe::fresh(), true, 31);
    show(rt, &[0; 128], Pipe::fresh(), true, 0);
    channels(rt);
    samples(rt, 1023);
    samples(rt, 1024);
    checks(rt);
    bytes(rt);
    timeouts(rt);
    takes(rt);
    drops(rt)
}

fn main(rt: HostRuntime) {
    print_all(&rt);
}
