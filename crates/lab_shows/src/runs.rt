// The address, and words, each after one space.
ghost use Rattle.std.specs.Prelude.{[], ◌∷◌, ◌+◌, ◌*◌, ◌≤◌, length};
ghost use Rattle.items.specs.Output.{Written};
ghost use Rattle.decimals.specs.Printing.{spelled};
ghost use Rattle.lab_shows.specs.Shown.{address_number, spelled_words};

use decimals::put_one;
use items::Output;

// -1 for no address: `V` prints it so (`address_number`).
pub fn put_address(out: &mut Output<'_>, given: Option<u16>)
    requires { out.old.at + 22 ≤ length out.old.out.now }
    ensures { Written (spelled (address_number given ∷ [])) 22 out.old out.new }
{
    put_one(out, given.map_or(-1, i32::from));
}

pub fn put_words(out: &mut Output<'_>, words: &[u16])
    requires { out.old.at + 5 * length words.now ≤ length out.old.out.now }
    ensures { Written (spelled_words words.now) (5 * length words.now) out.old out.new }
{
    for word in words {
        let [a, b, c, d] = hexes::word(*word);
        out.append(&[b' ', a, b, c, d]);
    }
}
