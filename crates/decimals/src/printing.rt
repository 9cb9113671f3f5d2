// Numbers in decimal, and runs of them, each after one space.
ghost use Rattle.std.specs.Prelude.{ℕ, ℤ, pos, [], ◌∷◌, ◌+◌, ◌*◌, ◌≤◌, length, map};
ghost use Rattle.items.specs.Characters.{space};
ghost use Rattle.items.specs.Printed.{decimal};
ghost use Rattle.items.specs.Output.{Written};
ghost use Rattle.decimals.specs.Printing.{signed_text, spelled};

use items::Output;

// What is printed in decimal: which number it is, and in how many characters at the most. No `Display`, which promises no text.
pub trait Numeral: Copy {
    ghost value: { Self → ℤ };

    ghost most: { ℕ };

    fn put(self, out: &mut Output<'_>)
        requires { out.old.at + most ≤ length out.old.out.now }
        ensures { Written (signed_text (value self)) most out.old out.new };
}

impl Numeral for u8 {
    ghost value = { pos };

    ghost most = { 3 };

    fn put(self, out: &mut Output<'_>) {
        put_digits(out, u64::from(self));
    }
}

impl Numeral for u64 {
    ghost value = { pos };

    ghost most = { 20 };

    fn put(self, out: &mut Output<'_>) {
        put_number(out, self);
    }
}

impl Numeral for i32 {
    ghost value = { λ z. z };

    ghost most = { 21 };

    fn put(self, out: &mut Output<'_>) {
        put_signed(out, self);
    }
}

// The digits go from the right into twenty places: a `for` over the places would need the same test to end.
fn put_digits(out: &mut Output<'_>, n: u64)
    requires { out.old.at + length (decimal n) ≤ length out.old.out.now }
    ensures { Written (decimal n) (length (decimal n)) out.old out.new }
{
    let mut text = [b'0'; 20];
    let mut i: usize = 19;
    let mut rest = n;
    while rest >= 10 {
        text[i] = b'0' + (rest % 10) as u8;
        rest = rest / 10;
        i -= 1;
    }
    text[i] = b'0' + rest as u8;
    out.append(&text[i..]);
}

pub fn put_number(out: &mut Output<'_>, n: u64)
    requires { out.old.at + 20 ≤ length out.old.out.now }
    ensures { Written (decimal n) 20 out.old out.new }
{
    put_digits(out, n);
}

// A number that may be below 0.
pub fn put_signed(out: &mut Output<'_>, v: i32)
    requires { out.old.at + 21 ≤ length out.old.out.now }
    ensures { Written (signed_text v) 21 out.old out.new }
{
    if v < 0 {
        out.append(b"-");
    }
    put_number(out, u64::from(v.unsigned_abs()));
}

pub fn put_space(out: &mut Output<'_>)
    requires { out.old.at + 1 ≤ length out.old.out.now }
    ensures { Written (space ∷ []) 1 out.old out.new }
{
    out.append(b" ");
}

// Numbers, each after one space.
pub fn put_numerals<T: Numeral>(out: &mut Output<'_>, numbers: &[T])
    requires { out.old.at + (T.most + 1) * length numbers.now ≤ length out.old.out.now }
    ensures { Written (spelled (map T.value numbers.now)) ((T.most + 1) * length numbers.now) out.old out.new }
{
    for n in numbers {
        put_space(out);
        n.put(out);
    }
}

// One that may be below 0, after one space.
pub fn put_one(out: &mut Output<'_>, v: i32)
    requires { out.old.at + 22 ≤ length out.old.out.now }
    ensures { Written (spelled (v ∷ [])) 22 out.old out.new }
{
    put_numerals(out, &[v]);
}
