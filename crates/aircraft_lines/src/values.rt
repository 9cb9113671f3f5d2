// A number of the text as a field's, and as a parameter's value.
ghost use Rattle.std.specs.Prelude.{◌≡◌, cond, Option, Some, None};
ghost use Rattle.airframe.specs.Given.{value_typed};
ghost use Rattle.aircraft_lines.specs.Asked.{is_plain, size_of, value_of};

use decimals::Number;

// The size of a number without a sign.
pub fn plain(n: Option<Number>) -> Option<u64>
    ensures { result ≡ cond (is_plain n) (Some (size_of n)) None }
{
    match n {
        Some(Number { minus: false, size }) => Some(size),
        _ => None,
    }
}

// The value, where 32 bits hold it.
// lab_lines has the same two lines: one function for both would have a contract and an edit of its own, longer than what it saves.
pub fn value(n: Number) -> Option<i32>
    ensures { result ≡ cond (value_typed (value_of n)) (Some (value_of n)) None }
{
    let size = i64::try_from(n.size).ok()?;
    i32::try_from(if n.minus { -size } else { size }).ok()
}
