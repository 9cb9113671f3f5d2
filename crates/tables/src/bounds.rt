// What is judged before a call: the bounds of the state, one by one, and the sizes of the tables.
ghost use Rattle.std.specs.Prelude.{◌≡◌, ◌&&◌, not, ltb};
ghost use Rattle.tables.specs.Tables.{three, tables_sized};
ghost use Rattle.orders.specs.Command.{length_allowed};
ghost use Rattle.tables.specs.Port.{is_open};
ghost use Rattle.tables.specs.Bounds.{sound_transfer, sound_words};

use crate::sizes::within;
use crate::{Header, Transfer, Words};
use orders::allowed;

// Whether no transfer is open.
pub fn idle(t: Transfer) -> bool
    ensures { result ≡ not (is_open t) }
{
    matches!(t, Transfer::Idle)
}

// Whether a load or a read of an allowed length is not at its end.
fn along(h: Header, k: u8) -> bool
    ensures { result ≡ (length_allowed h.n && ltb k h.n) }
{
    allowed(u16::from(h.n)) && k < h.n
}

#[tactic(auto, unfolding(crate::specs::Bounds::sound_transfer))]
fn transfer_sound(t: Transfer) -> bool
    ensures { result ≡ sound_transfer t }
{
    match t {
        Transfer::Idle | Transfer::Address => true,
        Transfer::Load { header, k } => along(header, k),
        Transfer::Read { header, k, start } => {
            along(header, k) && within(header, u16::from(start))
        }
    }
}

// Whether the state is within its bounds.
#[tactic(auto, unfolding(crate::specs::Bounds::sound_words, crate::specs::Bounds::sound_places))]
pub fn sound(w: &Words) -> bool
    ensures { result ≡ sound_words w.now }
{
    let places = w.places;
    places.five <= 64 && places.six <= 128 && places.seven <= 64 && transfer_sound(w.transfer)
}

// Whether the tables have their exact sizes. Slices, since the pod's calls are lent tables of any length, and row 2 refuses the others.
#[tactic(auto, unfolding(crate::specs::Tables::tables_sized))]
pub fn sized(five: &[u16], six: &[u16], seven: &[u16]) -> bool
    ensures { result ≡ tables_sized (three five.now six.now seven.now) }
{
    five.len() == 64 && six.len() == 128 && seven.len() == 64
}
