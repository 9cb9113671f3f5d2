// Numbers in a run of bytes, high byte first, of 8, 16 and 32 bits; and a run that is copied.
#![tactic(auto)]

ghost use Rattle.std.specs.Prelude.{◌≡◌, ◌+◌, ◌≤◌, length};
ghost use Rattle.std.proofs.lemmas.List.Edits.{sets};
ghost use Rattle.numbers.specs.Numbers.{number_at, signed_of, unsigned_of};

// The number of the two bytes at `at`. Two functions, since `from_be_bytes` is of its width: bytes of either width would still be turned
// into a number at each caller.
#[tactic(auto, using(crate::proofs::Digits::two_number))]
pub fn two_at(s: &[u8], at: usize) -> u16
    requires { at + 2 ≤ length s.now }
    ensures { result ≡ number_at s.now at 2 }
{
    u16::from_be_bytes([s[at], s[at + 1]])
}

// The number of the four bytes at `at`.
#[tactic(auto, using(crate::proofs::Digits::four_number))]
pub fn four_at(s: &[u8], at: usize) -> u32
    requires { at + 4 ≤ length s.now }
    ensures { result ≡ number_at s.now at 4 }
{
    u32::from_be_bytes([s[at], s[at + 1], s[at + 2], s[at + 3]])
}

// Some bytes go to `at`: those of a number are its `to_be_bytes`.
pub fn put<const N: usize>(s: &mut [u8], at: usize, bytes: [u8; N])
    requires { at + N ≤ length s.old }
    ensures { s.new ≡ sets s.old at bytes.entry }
{
    copy(s, at, &bytes);
}

// The number whose 32 bits in two's complement are u.
#[tactic(auto, unfolding(crate::specs::Numbers::signed_of))]
pub fn signed(u: u32) -> i32
    ensures { result ≡ signed_of 4 u }
{
    u.cast_signed()
}

// The 32 bits of a number in two's complement.
#[tactic(auto, unfolding(crate::specs::Numbers::unsigned_of))]
pub fn unsigned(v: i32) -> u32
    ensures { result ≡ unsigned_of 4 v }
{
    v.cast_unsigned()
}

// A run goes to `at`. By places, and not by `copy_from_slice`: the library for C would then call `memmove`.
pub fn copy<T: Copy>(to: &mut [T], at: usize, run: &[T])
    requires { at + length run.now ≤ length to.old }
    ensures { to.new ≡ sets to.old at run.now }
{
    for (i, b) in run.iter().enumerate() {
        to[at + i] = *b;
    }
}
