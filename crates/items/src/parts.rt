// Characters and words: copied to a place, and their first ones.
ghost use Rattle.std.specs.Prelude.{◌≡◌, ◌+◌, ◌≤◌, length, take};
ghost use Rattle.std.proofs.lemmas.List.Edits.{sets};

// Copies a text to a place of any lent run, and answers the place behind it; `Output::append` does it where the place is kept beside.
pub fn append(out: &mut [u8], at: usize, text: &[u8]) -> usize
    requires { at + length text.now ≤ length out.old }
    ensures value { result ≡ at + length text.now }
    ensures out_after { out.new ≡ sets out.old at text.now }
{
    numbers::copy(out, at, text);
    at + text.len()
}

// The first characters or words, so many, or all where there are fewer.
pub fn front<T>(items: &[T], n: usize) -> &[T]
    ensures result_value { result.now ≡ take n items.now }
    ensures result_in_bounds { length result.now ≤ length items.now }
{
    if n < items.len() { &items[..n] } else { items }
}
