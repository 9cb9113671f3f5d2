// What an answer means, behind the letter `R`.
ghost use Rattle.std.specs.Prelude.{◌++◌, ◌+◌, ◌*◌, ◌≤◌, length};
ghost use Rattle.rows.specs.Rows.{gave};
ghost use Rattle.items.specs.Text.{spell};
ghost use Rattle.items.specs.Output.{Written};
ghost use Rattle.airframe.specs.Reading.{status, value, shown_report, meaning_said};
ghost use Rattle.aircraft_answers.specs.Words.{meant_text};

use airframe::{Meaning, Refusal, Shown, block, ids};
use decimals::{put_number, put_numerals, put_one};
use items::Output;

// The thirteen numbers of a status.
// The ids are a part of the answer, a slice of eight at the most, so the bound is a clause.
fn put_status(out: &mut Output<'_>, shown: Shown, ids: &[u8])
    requires { (length ids.now ≤ 8) × (out.old.at + 280 ≤ length out.old.out.now) }
    ensures { Written (meant_text (gave (status (shown_report shown ids.now) shown.request))) 280 out.old out.new }
{
    out.append(b" status");
    let numbers = [
        u64::from(shown.mode),
        u64::from(shown.flags),
        u64::from(shown.priority),
        u64::from(shown.ordinary),
        u64::from(shown.request),
    ];
    put_numerals(out, &numbers);
    put_numerals(out, ids);
}

fn put_value(out: &mut Output<'_>, id: u8, v: i32)
    requires { out.old.at + 49 ≤ length out.old.out.now }
    ensures { Written (meant_text (gave (value id v))) 49 out.old out.new }
{
    out.append(b" value");
    put_numerals(out, &[id]);
    put_one(out, v);
}

// A word, and bytes behind it.
fn put_listed(out: &mut Output<'_>, word: &[u8], bytes: &[u8])
    requires { (length word.now + 3 * length bytes.now ≤ 773) × (out.old.at + 773 ≤ length out.old.out.now) }
    ensures { Written (word.now ++ spell bytes.now) 773 out.old out.new }
{
    out.append(word);
    out.items(bytes);
}

// What an answer means, or why it is not read. The longest is a block of 256 bytes.
// The answer stands beside what it means, as `meaning_said` has the two.
pub fn put_meaning(out: &mut Output<'_>, read: Result<Meaning, Refusal>, answer: &[u8])
    requires { out.old.at + 773 ≤ length out.old.out.now }
    ensures { Written (meant_text (meaning_said read answer.now)) 773 out.old out.new }
{
    match read {
        Err(why) => {
            out.append(b" !");
            put_number(out, u64::from(u8::from(why)));
        }
        Ok(Meaning::Done) => out.append(b" done"),
        Ok(Meaning::Error(error)) => put_listed(out, b" error", &[error]),
        Ok(Meaning::State(shown)) => put_status(out, shown, ids(answer)),
        Ok(Meaning::Value(id, v)) => put_value(out, id, v),
        Ok(Meaning::Block) => put_listed(out, b" data", block(answer)),
    }
}
