// What the port starts with: the state, and the three tables.
ghost use Rattle.std.specs.Prelude.{◌≡◌};
ghost use Rattle.tables.specs.Tables.{starts};
ghost use Rattle.tables.specs.Lent.{held, SameTables};
ghost use Rattle.tables.specs.Port.{start_words};

use crate::{Places, Tables, Transfer, Words};
use std::array;

// The state as from power.
#[tactic(auto, unfolding(crate::specs::Port::start_words))]
pub fn start_words() -> Words
    ensures { result ≡ start_words }
{
    Words {
        error: false,
        transfer: Transfer::Idle,
        places: Places::default(),
        given: None,
    }
}

impl Tables<'_> {
    // All three tables to their starts.
    pub fn restart(&mut self)
        ensures same { SameTables self.old self.new }
        ensures started { held self.new ≡ starts }
    {
        *self.five = [0; 64];
        *self.six = [0; 128];
        *self.seven = array::from_fn(|i| 256 * i as u16);
    }
}
