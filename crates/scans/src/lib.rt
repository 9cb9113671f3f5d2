// Where a byte stands first in a part of a text.
#![tactic(auto)]

ghost use Rattle.std.specs.Prelude.{◌≡◌, ◌+◌, ◌≤◌, length};
ghost use Rattle.scans.specs.Scans.{index_of, slice};

// Where `b` stands first among the bytes of `text` from `from` on and below `to`; `to` where it stands at none of them. No Option:
// `index_of` counts all of them then, and a line or a name without its mark ends at `to`.
pub fn find(text: &[u8], from: usize, to: usize, b: u8) -> usize
    requires { (from ≤ to) × (to ≤ length text.now) }
    ensures { result ≡ from + index_of b (slice from to text.now) }
{
    match text[from..to].iter().position(|x| *x == b) {
        Some(k) => from + k,
        None => to,
    }
}
