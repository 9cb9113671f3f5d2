// Bytes and words as capital hex digits, as the programs print them.
#![tactic(auto)]

ghost use Rattle.std.specs.Prelude.{◌≡◌, ◌<◌};
ghost use Rattle.hexes.specs.Digits.{digit_of, byte_digits, word_digits};

// Capital digits, which the library gives of no value.
fn digit(n: u8) -> u8
    requires { n < 16 }
    ensures { result ≡ digit_of n }
{
    if n < 10 { b'0' + n } else { b'A' - 10 + n }
}

pub fn byte(b: u8) -> [u8; 2]
    ensures { result ≡ byte_digits b }
{
    [digit(b / 16), digit(b % 16)]
}

pub fn word(w: u16) -> [u8; 4]
    ensures { result ≡ word_digits w }
{
    let [high, low] = w.to_be_bytes();
    let [a, b] = byte(high);
    let [c, d] = byte(low);
    [a, b, c, d]
}
