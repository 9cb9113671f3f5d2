// What an answer means, as a kind and values.
ghost use Rattle.std.specs.Prelude.{◌≡◌, List, ◌∷◌, map, ℕ, ◌≤◌, pos, length};
ghost use Rattle.std.proofs.lemmas.List.Edits.{sets};
ghost use Rattle.rows.specs.Rows.{out};
ghost use Rattle.airframe.specs.Reading.{read_as, meaning_said};
ghost use Rattle.tolmezha.specs.Numbers.{read_answered};

use crate::{
    BLOCK, DONE, ERROR, STATUS, STATUS_FLAGS, STATUS_IDS, STATUS_MODE, STATUS_ORDINARY,
    STATUS_PRIORITY, STATUS_REQUEST, VALUE,
};
use airframe::{Meaning, Refusal, Shown};

// The code as a byte. A larger number is no command's code, and 0 is none either.
// No Option: `read` refuses 0 as it refuses the larger number, and the clause says just that.
pub fn byte(code: u32) -> u8
    ensures { (a : List ℕ) → read_as result a ≡ read_as code a }
{
    u8::try_from(code).unwrap_or(0)
}

// The ids are a part of the answer, a slice of eight at the most, so each function that is handed them says the bound. `enumerate` gives
// the place in the values: to zip with a part of them would be as long.
fn put_ids(ids: &[u8], values: &mut [i64; 13])
    requires { length ids.now ≤ 8 }
    ensures { values.new ≡ sets values.old 5 (map pos ids.now) }
{
    for (i, id) in ids.iter().enumerate() {
        values[STATUS_IDS + i] = i64::from(*id);
    }
}

fn put_status(shown: Shown, ids: &[u8], values: &mut [i64; 13])
    requires { length ids.now ≤ 8 }
    ensures { values.new ≡ sets values.old 0 (map pos (shown.mode ∷ shown.flags ∷ shown.priority ∷ shown.ordinary ∷ shown.request ∷ ids.now)) }
{
    values[STATUS_MODE] = i64::from(shown.mode);
    values[STATUS_FLAGS] = i64::from(shown.flags);
    values[STATUS_PRIORITY] = i64::from(shown.priority);
    values[STATUS_ORDINARY] = i64::from(shown.ordinary);
    values[STATUS_REQUEST] = i64::from(shown.request);
    put_ids(ids, values);
}

// The answer stands beside what it means, here and in `put_reply`, as `meaning_said` has the two.
#[tactic(auto, using(crate::proofs::Read::few_ids), unfolding(airframe::specs::Reading::meaning_said))]
pub fn put(read: Result<Meaning, Refusal>, answer: &[u8], values: &mut [i64; 13]) -> i32
    ensures { out result tt values.new ≡ read_answered (meaning_said read answer.now) values.old }
{
    match read {
        Err(why) => crate::building::refusal(why),
        Ok(Meaning::Done) => DONE,
        Ok(Meaning::Error(error)) => {
            values[0] = i64::from(error);
            ERROR
        }
        Ok(Meaning::State(shown)) => {
            put_status(shown, airframe::ids(answer), values);
            STATUS
        }
        Ok(Meaning::Value(id, value)) => {
            values[0] = i64::from(id);
            values[1] = i64::from(value);
            VALUE
        }
        Ok(Meaning::Block) => BLOCK,
    }
}
