// Numbers of a type of one's own, each after one space.
ghost use Rattle.std.specs.Prelude.{negsuc};

use decimals::{Decimal, put_number, put_run};
use items::Output;
use pieces::flush_all;

// A number below 0: 0 is -1.
#[derive(Clone, Copy)]
struct Below {
    by: u32,
}

impl Decimal for Below {
    ghost value = { λ s. negsuc s.by };

    ghost most = { 21 };

    fn put(self, out: &mut Output<'_>) {
        out.append(b"-");
        put_number(out, u64::from(self.by) + 1);
    }
}

pub fn show() {
    let mut places = [0u8; 64];
    let mut out = Output {
        out: &mut places,
        at: 0,
    };
    out.append(b"numbers");
    put_run(&mut out, &[Below { by: 0 }, Below { by: u32::MAX }]);
    out.append(b"\n");
    flush_all(&mut out);
}
