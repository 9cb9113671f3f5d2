// Decimal numbers, one space before each.
ghost use Rattle.std.specs.Prelude.{◌≡◌};
ghost use Rattle.decimals.specs.Reading.{is_below, digit_in, digits_in, number_in, numbers_in, numbers_read};

use crate::{Number, Numbers};

// A digit's value, as `digit_in` has it: `to_digit` would go from a `char` to 32 bits and back.
fn digit(c: u8) -> Option<u8>
    ensures { result ≡ digit_in c }
{
    if c.is_ascii_digit() {
        Some(c - b'0')
    } else {
        None
    }
}

// The number of 1 to 10 digits. No `parse`, which takes a `+` too, and a text of any length: both would be tested here first.
fn digits(text: &[u8]) -> Option<u64>
    ensures { result ≡ digits_in text.now }
{
    if !((1 <= text.len()) & (text.len() <= 10)) {
        return None;
    }
    let mut n: u64 = 0;
    for c in text {
        n = n * 10 + u64::from(digit(*c)?);
    }
    Some(n)
}

// A number's digits, behind a `-` where it has one.
#[tactic(auto, unfolding(crate::specs::Reading::number_in))]
fn number(text: &[u8]) -> Option<Number>
    ensures { result ≡ number_in text.now }
{
    match text {
        [b'-', rest @ ..] => Some(Number {
            minus: true,
            size: digits(rest)?,
        }),
        _ => Some(Number {
            minus: false,
            size: digits(text)?,
        }),
    }
}

// Whether a number is below 0.
pub fn below(n: Number) -> bool
    ensures { result ≡ is_below n }
{
    n.minus & (0 < n.size)
}

// The numbers of a text, each after one space. They are counted past the ninth, which is the last one kept.
pub fn numbers_in(text: &[u8]) -> Numbers
    ensures { result ≡ numbers_read (numbers_in text.now) }
{
    let mut list = [None; 9];
    let mut count = 0;
    if let [_, rest @ ..] = text {
        for piece in rest.split(|c| *c == b' ') {
            if count < 9 {
                list[count] = number(piece);
            }
            count += 1;
        }
    }
    Numbers { count, list }
}
