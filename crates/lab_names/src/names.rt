// The names of the lines `X` and `L`, looked for.
ghost use Rattle.std.specs.Prelude.{◌≡◌, ◌≤◌, length};
ghost use Rattle.lab_names.specs.Names.{padded, part_named};

use crate::Part;
use crate::table::table;

// How many characters a name has at the most.
const LONGEST: usize = 14;

// Spaces behind it, up to the length of a name.
fn pad(head: &[u8]) -> [u8; 14]
    requires { length head.now ≤ 14 }
    ensures { result ≡ padded head.now }
{
    let mut text = [b' '; LONGEST];
    numbers::copy(&mut text, 0, head);
    text
}

// What the letter and the name at the head of a line stand for.
pub fn named(head: &[u8]) -> Option<Part>
    ensures { result ≡ part_named head.now }
{
    if head.len() > LONGEST {
        return None;
    }
    let text = pad(head);
    let names = table();
    for (name, part) in names.iter() {
        if *name == text {
            return Some(*part);
        }
    }
    None
}
