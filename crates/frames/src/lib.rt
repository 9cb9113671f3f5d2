// The samples of a survey: their bound, the eight averages, and the two status frames that show them.
#![tactic(auto)]

ghost use Rattle.std.specs.Prelude.{◌≡◌, true, map, ℕ, ◌+◌, ◌/◌, ◌≤◌, ◌<◌, length};
ghost use Rattle.frames.specs.Samples.{channels, sum_of, averages_of, bounded_of};
ghost use Rattle.frames.specs.Fields.{bits_of, frame};
ghost use Rattle.frames.specs.Layout.{lines03, lines47, frames_of};

use pipe::Pipe;

// The samples of a set: eight channels by sixteen passes.
pub const SET: usize = 128;

// The greatest self-check number: it has five bits in its frame.
pub const CHECK: u8 = 31;

// The two frames of eight bytes, AN03 and AN47.
#[derive(Clone, Copy)]
pub struct Frames {
    pub an03: [u8; 8],
    pub an47: [u8; 8],
}

// Whether no sample is over 1,023: looked at pass after pass, up to the first that is over. Two loops left by a label, a form that the
// rules name; that a set is lent as a slice of 128 stays a clause, since callers hand in slices.
#[tactic(auto, using(crate::proofs::Bounds::walked))]
pub fn bounded(samples: &[u16]) -> bool
    requires { length samples.now ≡ 128 }
    ensures { result ≡ bounded_of samples.now }
{
    let mut within = true;
    'passes: for p in 0..16usize {
        for c in 0..8usize {
            if samples[p * 8 + c] > 1023 {
                within = false;
                break 'passes;
            }
        }
    }
    within
}

// Pass p added to the eight sums over the passes before it, which are carried by value, a form that the rules name. By places, since
// the closure of an `array::from_fn` would have to require all this once more.
fn add_pass(sums: [u16; 8], samples: &[u16], p: usize) -> [u16; 8]
    requires { (length samples.now ≡ 128) × (bounded_of samples.now ≡ true) × (p < 16) × (sums ≡ map (sum_of p samples.now) channels) }
    ensures { result ≡ map (sum_of (p + 1) samples.now) channels }
{
    let mut out = sums;
    for c in 0..8usize {
        out[c] = out[c] + samples[p * 8 + c];
    }
    out
}

// Eight sums over sixteen passes divided by sixteen, rounded down.
fn divided(sums: [u16; 8]) -> [u16; 8]
    ensures { result ≡ map (λ (s : ℕ). s / 16) sums }
{
    sums.map(|s| s / 16)
}

// The eight averages over sixteen passes. By the number of the pass, which the clause of `add_pass` goes by (`sum_of p`).
#[tactic(auto, using(crate::proofs::Sums::sums_none))]
pub fn averages(samples: &[u16]) -> [u16; 8]
    requires { (length samples.now ≡ 128) × (bounded_of samples.now ≡ true) }
    ensures { result ≡ averages_of 16 samples.now }
{
    let mut sums = [0u16; 8];
    for p in 0..16usize {
        let next = add_pass(sums, samples, p);
        sums = next;
    }
    divided(sums)
}

// Bits 7..0 of an average. This and `high` are two functions, since each line is `bits_of` as the table writes it.
fn low(v: u16) -> u8
    ensures { result ≡ bits_of v 7 0 }
{
    (v % 256) as u8
}

// Bits 9..8 of an average.
fn high(v: u16) -> u8
    ensures { result ≡ bits_of v 9 8 }
{
    (v / 256 % 4) as u8
}

// The frame AN03 of eight averages, the pipe, initialised or not, and the self-check number.
#[tactic(auto, using(crate::proofs::Bytes::bytes_03))]
fn three(a: [u16; 8], pipe: Pipe, initialised: bool, selfcheck: u8) -> [u8; 8]
    requires { (pipe.input.timeouts ≤ 15) × (pipe.output.timeouts ≤ 15) × (selfcheck ≤ 31) }
    ensures { result ≡ frame (lines03 a pipe initialised selfcheck) }
{
    [
        pipe.input.timeouts * 16 + pipe.output.timeouts,
        0,
        low(a[1]),
        u8::from(pipe.input.gathering()) * 128 + high(a[1]),
        low(a[2]),
        u8::from(pipe.output.busy()) * 128 + u8::from(initialised) * 4 + high(a[2]),
        low(a[3]),
        selfcheck * 4 + high(a[3]),
    ]
}

// The frame AN47 of eight averages.
#[tactic(auto, using(crate::proofs::Bytes::bytes_47))]
fn fortyseven(a: [u16; 8]) -> [u8; 8]
    ensures { result ≡ frame (lines47 a) }
{
    [
        0,
        0,
        low(a[5]),
        high(a[5]),
        low(a[6]),
        high(a[6]),
        low(a[7]),
        high(a[7]),
    ]
}

// The two frames that show the samples, the pipe, initialised or not, and the self-check number.
#[tactic(auto, unfolding(crate::specs::Layout::frames_of))]
pub fn two_frames(samples: &[u16], pipe: Pipe, initialised: bool, selfcheck: u8) -> Frames
    requires { (length samples.now ≡ 128) × (bounded_of samples.now ≡ true) × (pipe.input.timeouts ≤ 15) × (pipe.output.timeouts ≤ 15) × (selfcheck ≤ 31) }
    ensures { result ≡ frames_of 16 samples.now pipe initialised selfcheck }
{
    let a = averages(samples);
    Frames {
        an03: three(a, pipe, initialised, selfcheck),
        an47: fortyseven(a),
    }
}
