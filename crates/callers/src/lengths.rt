// The length of each line of the input, behind a heading that is gathered before the first is read.
ghost use Rattle.std.specs.Prelude.{◌≡◌, ◌∷◌, [], ◌++◌, true, List, ℕ, leb, length};
ghost use Rattle.items.specs.Characters.{newline};
ghost use Rattle.items.specs.Output.{Written};
ghost use Rattle.items.specs.Printed.{decimal};

use decimals::put_number;
use items::Output;
use pieces::{Answers, flush_all, run};

#[derive(Drop)]
struct Lengths<'a> {
    out: Output<'a>,
}

impl<'a> Answers for Lengths<'a> {
    ghost answers = { λ t s r. Written (decimal (length t) ++ newline ∷ []) 21 s.out r.out };

    ghost Fine = { λ s. length s.out.out.now ≡ 1024 };

    ghost room = { λ s. leb s.out.at 1000 };

    fn has_room(&self) -> bool {
        self.out.at <= 1000
    }

    fn answer(&mut self, text: &[u8]) {
        put_number(&mut self.out, text.len() as u64);
        self.out.append(b"\n");
    }

    fn write(&mut self) -> bool
        requires { length self.old.out.out.now ≡ 1024 }
        ensures fine { length self.new.out.out.now ≡ 1024 }
        ensures has_room { leb self.new.out.at 1000 ≡ true }
    {
        flush_all(&mut self.out)
    }
}

pub fn show(rt: &HostRuntime) {
    let mut piece = [0u8; 65536];
    let mut line = [0u8; 196606];
    let mut places = [0u8; 1024];
    let mut out = Output {
        out: &mut places,
        at: 0,
    };
    out.append(b"lengths\n");
    let mut lengths = Lengths { out };
    run(&mut piece, &mut line, &mut lengths, &mut rt.stdin());
}
