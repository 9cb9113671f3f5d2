// A register of 64 bits: what its eight bytes leave in the register of 16 bits.
ghost use Rattle.std.specs.Prelude.{◌≡◌};
ghost use Rattle.crc.specs.Crc.{crc_from};
ghost use Rattle.crc.specs.Bytes.{crc_bytes};

use crate::narrow::four;

// A number of 32 bits that leaves the same. Modulo the polynomial x ^ 32 is x ^ 24 + x ^ 10 + 1, its square. At its own width, as
// src/lib.rt says.
#[tactic(auto, using(crate::proofs::Fold::in_halves))]
fn halved(s: u64) -> u32
    ensures { crc_from 0 (crc_bytes 4 result) ≡ crc_from 0 (crc_bytes 8 s) }
{
    let t = (s >> 32) as u32;
    let u = t ^ (t >> 8);
    let h = u ^ (u >> 16) ^ (t >> 22);
    h ^ (h << 10) ^ (h << 24) ^ ((s % 0x1_0000_0000) as u32)
}

pub fn fold_of(s: u64) -> u16
    ensures { result ≡ crc_from 0 (crc_bytes 8 s) }
{
    four(0, halved(s))
}
