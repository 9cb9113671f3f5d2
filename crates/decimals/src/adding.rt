// Numbers in decimal, as `printing` has them, where nothing is said of whose run an output has afterwards.
ghost use Rattle.std.specs.Prelude.{ℕ, ℤ, ◌+◌, ◌*◌, ◌≤◌, length, map};
ghost use Rattle.decimals.specs.Printing.{signed_text, spelled};
ghost use Rattle.decimals.specs.Added.{Added};

use crate::Numeral;
use items::Output;

// What is printed in decimal, as `Numeral` is, but for that.
pub trait Decimal: Copy {
    ghost value: { Self → ℤ };

    ghost most: { ℕ };

    fn put(self, out: &mut Output<'_>)
        requires { out.old.at + most ≤ length out.old.out.now }
        ensures { Added (signed_text (value self)) most out.old out.new };
}

impl<T: Numeral> Decimal for T {
    ghost value = { T.value };

    ghost most = { T.most };

    fn put(self, out: &mut Output<'_>) {
        Numeral::put(self, out);
    }
}

// Numbers, each after one space. The loop of `put_numerals` once more, since that one asks for more of each number than is known here.
pub fn put_run<T: Decimal>(out: &mut Output<'_>, numbers: &[T])
    requires { out.old.at + (T.most + 1) * length numbers.now ≤ length out.old.out.now }
    ensures { Added (spelled (map T.value numbers.now)) ((T.most + 1) * length numbers.now) out.old out.new }
{
    for n in numbers {
        out.append(b" ");
        n.put(out);
    }
}
