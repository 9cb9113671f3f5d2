// The register of 16 bits: one byte more, and two and four at once.
ghost use Rattle.std.specs.Prelude.{◌≡◌, [], ◌∷◌};
ghost use Rattle.crc.specs.Crc.{crc_from};
ghost use Rattle.crc.specs.Bytes.{crc_bytes};

// No table: what leaves at the top is put back by shifts.
pub fn one(c: u16, b: u8) -> u16
    ensures { result ≡ crc_from c (b ∷ []) }
{
    let x = (c >> 8) as u8 ^ b;
    let y = u16::from(x ^ (x >> 4));
    (c << 8) ^ y ^ (y << 5) ^ (y << 12)
}

// At its own width, as src/lib.rt says.
#[tactic(auto, using(crate::proofs::Fold::two_more))]
pub fn two(c: u16, w: u16) -> u16
    ensures { result ≡ crc_from c (crc_bytes 2 w) }
{
    let s = c ^ w;
    let u = s ^ (s >> 4);
    let h = u ^ (u >> 8) ^ (s >> 11);
    h ^ (h << 5) ^ (h << 12)
}

#[tactic(auto, using(crate::proofs::Bytes::in_two))]
pub fn four(c: u16, w: u32) -> u16
    ensures { result ≡ crc_from c (crc_bytes 4 w) }
{
    two(two(c, (w >> 16) as u16), (w % 0x1_0000) as u16)
}
