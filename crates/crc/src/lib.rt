// The check of a run of bytes: CRC-16 with the polynomial 0x1021 from 0xFFFF, the high bit of each byte first.
#![tactic(auto)]

mod narrow;
mod wide;

ghost use Rattle.std.specs.Prelude.{◌≡◌};
ghost use Rattle.crc.specs.Crc.{crc_of};

use narrow::{one, two};
use wide::fold_of;

// A number of 64 bits whose eight bytes leave 0xFFFF in an empty register.
const START: u64 = 33999;

// Eight bytes at a time into a register of 64 bits. Modulo the polynomial x ^ 64 is x ^ 48 + x ^ 20 + 1, its fourth power: so what
// falls out at the top comes in again below. The same fold stands at 32 bits in `halved` and at 16 in `two`: three lines each, with
// the shifts of the width; one function would go by a trait over three types that has all of these shifts. The law is one (`quotient`).
pub fn crc_of(bytes: &[u8]) -> u16
    ensures { result ≡ crc_of bytes.now }
{
    let (words, rest) = bytes.as_chunks::<8>();
    let mut s = START;
    for word in words {
        let u = s ^ (s >> 16);
        let h = u ^ (u >> 32) ^ (s >> 44);
        s = h ^ (h << 20) ^ (h << 48) ^ u64::from_be_bytes(*word);
    }
    let (pairs, last) = rest.as_chunks::<2>();
    let mut c = fold_of(s);
    for pair in pairs {
        c = two(c, u16::from_be_bytes(*pair));
    }
    match last.first() {
        Some(&b) => one(c, b),
        None => c,
    }
}
