// Items: one space and capital hex digits each.
ghost use Rattle.std.specs.Prelude.{◌≡◌, ◌*◌, ◌≤◌, ◌<◌, ℕ, List, Option, length};
ghost use Rattle.std.proofs.lemmas.List.Edits.{sets};
ghost use Rattle.items.specs.Text.{pair_in, byte_item, word_item, bytes_in, words_in, items_of, ItemsRead};
ghost use Rattle.items.specs.Items.{ReadsItems, TakesAtMost, byte_part, word_part, byte_laws, word_laws};

// Two digits as a byte. Both are worked out at once, one in each byte of a number: what the values would be, and then
// whether those are written so.
fn pair(high: u8, low: u8) -> Option<u8>
    ensures { result ≡ pair_in high low }
{
    let both = (low as u16) * 256 + (high as u16);
    let values = ((both & 0x0F0F) + ((both / 64) & 0x0303) * 9) & 0x0F0F;
    let written = values + 0x3030 + (((values + 0x0606) / 16) & 0x0101) * 7;
    if written != both {
        return None;
    }
    Some(((values * 16 + values / 256) % 256) as u8)
}

// A byte's item.
#[tactic(auto, unfolding(crate::specs::Text::byte_item))]
pub fn byte_item(space: u8, high: u8, low: u8) -> Option<u8>
    ensures { result ≡ byte_item space high low }
{
    if space == b' ' { pair(high, low) } else { None }
}

// A word's item.
#[tactic(auto, unfolding(crate::specs::Text::word_item, crate::specs::Text::word_of))]
pub fn word_item(space: u8, a: u8, b: u8, c: u8, d: u8) -> Option<u16>
    ensures { result ≡ word_item space a b c d }
{
    if space != b' ' {
        return None;
    }
    Some(u16::from_be_bytes([pair(a, b)?, pair(c, d)?]))
}

// What items of N characters each are: what one says, and what a text of them says.
trait Item<const N: usize>: Copy {
    ghost item_of: { List ℕ → Option Self };

    ghost text_of: { List ℕ → ItemsRead Self };

    fn item(text: &[u8; N]) -> Option<Self>
        ensures { result ≡ item_of text.now };

    // A text is read an item at a time.
    ghost laws: { ReadsItems N item_of text_of };
}

impl Item<3> for u8 {
    ghost item_of = { byte_part };

    ghost text_of = { bytes_in };

    ghost laws = { byte_laws };

    fn item(text: &[u8; 3]) -> Option<u8> {
        let [space, high, low] = *text;
        byte_item(space, high, low)
    }
}

impl Item<5> for u16 {
    ghost item_of = { word_part };

    ghost text_of = { words_in };

    ghost laws = { word_laws };

    fn item(text: &[u8; 5]) -> Option<u16> {
        let [space, a, b, c, d] = *text;
        word_item(space, a, b, c, d)
    }
}

// The items of a text, stored from the start of the lent memory: how many, where the text is nothing else. By places: in a loop over the
// memory's `iter_mut` and the parts the proof has no name for what the memory holds.
fn items_in<const N: usize, T: Item<N>>(text: &[u8], store: &mut [T]) -> Option<usize>
    requires small { TakesAtMost N T.row }
    requires room { length text.now ≤ N * length store.old }
    ensures value { result ≡ items_of (T.text_of text.now) }
    ensures store_after { store.new ≡ sets store.old 0 (T.text_of text.now).values }
{
    let (parts, rest) = text.as_chunks::<N>();
    for (n, part) in parts.iter().enumerate() {
        store[n] = T::item(part)?;
    }
    rest.is_empty().then_some(parts.len())
}

// The bytes of a text. This and `words_in` stay: by `items_in` each caller would write `::<3, u8>` or `::<5, u16>`, since a type does not
// say its N, and the trait would be public. The room is a clause, since only here do the text and the memory meet.
pub fn bytes_in(text: &[u8], bytes: &mut [u8]) -> Option<usize>
    requires { length text.now ≤ 3 * length bytes.old }
    ensures value { result ≡ items_of (bytes_in text.now) }
    ensures bytes_after { bytes.new ≡ sets bytes.old 0 (bytes_in text.now).values }
{
    items_in::<3, u8>(text, bytes)
}

// The words of a text, likewise.
pub fn words_in(text: &[u8], words: &mut [u16]) -> Option<usize>
    requires { length text.now ≤ 5 * length words.old }
    ensures value { result ≡ items_of (words_in text.now) }
    ensures words_after { words.new ≡ sets words.old 0 (words_in text.now).values }
{
    items_in::<5, u16>(text, words)
}
