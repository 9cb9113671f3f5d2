// The lines that the programs print, written behind what is gathered.
ghost use Rattle.std.specs.Prelude.{◌+◌, ◌*◌, ◌≤◌, ◌<◌, length};
ghost use Rattle.items.specs.Text.{spell};
ghost use Rattle.items.specs.Printed.{bytes_line, word_line, bare_line, refused_line};
ghost use Rattle.items.specs.Output.{Written};

use crate::Output;

impl<'a> Output<'a> {
    // Each byte after one space.
    pub fn items(&mut self, bytes: &[u8])
        requires { self.old.at + 3 * length bytes.now ≤ length self.old.out.now }
        ensures { Written (spell bytes.now) (3 * length bytes.now) self.old self.new }
    {
        for b in bytes {
            let [high, low] = hexes::byte(*b);
            self.append(&[b' ', high, low]);
        }
    }

    // A letter and bytes; ` -` for none.
    pub fn bytes_line(&mut self, letter: u8, bytes: &[u8])
        requires { self.old.at + 3 * length bytes.now + 4 ≤ length self.old.out.now }
        ensures { Written (bytes_line letter bytes.now) (3 * length bytes.now + 4) self.old self.new }
    {
        if bytes.is_empty() {
            return self.append(&[letter, b' ', b'-', b'\n']);
        }
        self.append(&[letter]);
        self.items(bytes);
        self.append(b"\n");
    }

    // A letter and a word.
    pub fn word_line(&mut self, letter: u8, word: u16)
        requires { self.old.at + 7 ≤ length self.old.out.now }
        ensures { Written (word_line letter word) 7 self.old self.new }
    {
        let [a, b, c, d] = hexes::word(word);
        self.append(&[letter, b' ', a, b, c, d, b'\n']);
    }

    // A letter alone.
    pub fn bare_line(&mut self, letter: u8)
        requires { self.old.at + 2 ≤ length self.old.out.now }
        ensures { Written (bare_line letter) 2 self.old self.new }
    {
        self.append(&[letter, b'\n']);
    }

    // A letter and the number of a refusal. The digits by hand: `Display` promises no text, and `decimals` stands over this crate.
    pub fn refused_line(&mut self, letter: u8, number: u8)
        requires { (self.old.at + 6 ≤ length self.old.out.now) × (number < 100) }
        ensures { Written (refused_line letter number) 6 self.old self.new }
    {
        if number < 10 {
            return self.append(&[letter, b' ', b'!', b'0' + number, b'\n']);
        }
        self.append(&[
            letter,
            b' ',
            b'!',
            b'0' + number / 10,
            b'0' + number % 10,
            b'\n',
        ]);
    }
}
