// The kept list of missing ids: an id struck out, and whether the list is the one that the marks decide.
ghost use Rattle.std.specs.Prelude.{◌≡◌, true, ◌+◌, ◌*◌, ◌<◌, drop};
ghost use Rattle.std.specs.Int.{from_le_bytes, to_le_bytes, w32, w64};
ghost use Rattle.params.specs.Rules.{struck, list_kept};
ghost use Rattle.params.specs.Packed.{low_first, bytes, places, asked_marks, list_for};

use crate::Params;

// A list without an id: those behind it move up. `n` is counted by hand: in a loop over a `zip` of `iter_mut` with a filter the proof
// has no name for what `out` holds.
pub fn struck(list: [u8; 8], id: u8) -> [u8; 8]
    ensures { result ≡ struck id list }
{
    let mut out = [0u8; 8];
    let mut n: usize = 0;
    for k in list {
        if k != id {
            out[n] = k;
            n += 1;
        }
    }
    out
}

// The number whose bytes are the eight places, the first one lowest: the compiler makes one load of it.
fn packed(l: [u8; 8]) -> u64
    ensures low { (result ≡ low_first l) × (bytes l ≡ true) }
    ensures eight { to_le_bytes w64 result ≡ l }
{
    u64::from_le_bytes(l)
}

// The marks of 1, 2, 3, 6 and 7 as the bits of a number, the first one lowest.
fn marks(w: [bool; 12]) -> u8
    ensures { (result ≡ asked_marks w) × (result < 32) }
{
    u8::from(w[0])
        + 2 * u8::from(w[1])
        + 4 * u8::from(w[2])
        + 8 * u8::from(w[5])
        + 16 * u8::from(w[6])
}

// The first four places of the right list as such a number, by those marks. Four and not eight, since the compiler makes one look
// into a table of it then also where a register has 32 bits.
#[tactic(auto, unfolding(crate::specs::Packed::low_first, crate::specs::Packed::list_for, crate::specs::Packed::list_by))]
fn list_for(k: u8) -> u32
    requires { k < 32 }
    ensures low { result ≡ low_first (places (list_for k) 0 4) }
    ensures four { result ≡ from_le_bytes w32 (list_for k) }
{
    match k {
        0 => 0x0603_0201,
        1 => 0x0706_0302,
        2 => 0x0706_0301,
        3 => 0x07_0603,
        4 => 0x0706_0201,
        5 => 0x07_0602,
        6 => 0x07_0601,
        7 => 0x0706,
        8 => 0x0703_0201,
        9 => 0x07_0302,
        10 => 0x07_0301,
        11 => 0x0703,
        12 => 0x07_0201,
        13 => 0x0702,
        14 => 0x0701,
        15 => 0x07,
        16 => 0x0603_0201,
        17 => 0x06_0302,
        18 => 0x06_0301,
        19 => 0x0603,
        20 => 0x06_0201,
        21 => 0x0602,
        22 => 0x0601,
        23 => 0x06,
        24 => 0x03_0201,
        25 => 0x0302,
        26 => 0x0301,
        27 => 0x03,
        28 => 0x0201,
        29 => 0x02,
        30 => 0x01,
        _ => 0x00,
    }
}

// And the last four: only where none is written is there a fifth id.
#[tactic(auto, unfolding(crate::specs::Packed::low_first, crate::specs::Packed::list_for, crate::specs::Packed::list_by))]
fn rest_for(k: u8) -> u32
    requires { k < 32 }
    ensures low { result ≡ low_first (places (list_for k) 4 4) }
    ensures four { result ≡ from_le_bytes w32 (drop 4 (list_for k)) }
{
    match k {
        0 => 7,
        _ => 0,
    }
}

// Whether the kept list is the one that the marks decide.
pub fn listed(p: &Params) -> bool
    ensures { result ≡ list_kept p.now }
{
    let k = marks(p.written);
    packed(p.missing) == u64::from(list_for(k)) + 0x1_0000_0000 * u64::from(rest_for(k))
}
