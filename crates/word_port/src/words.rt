// The table words that are lent the tables: command word, data words in and out. Only the words of the pod can change.
// The tables come as slices of any length, since the first row is of their sizes, which `tables::sized` judges.
// Then each becomes an array in a line of its own, since each has its own size: a function for the three would be as long as what it
// saves, and `data_out`, which only reads them, would need another. No such line refuses any more.
#![tactic(auto, using(gates::proofs::Fits::words_sound), unfolding(rows::specs::Rows::ran, rules::specs::Refusals::said, rules::specs::Refusals::refusal_number, rules::specs::Calls::word_call, rules::specs::Families::word_of, rules::specs::Families::word_lent, tables::specs::Tables::tables_sized))]

ghost use Rattle.std.specs.Prelude.{◌≡◌, true, false, List, ℕ, MatchResult};
ghost use Rattle.rows.specs.Rows.{out};
ghost use Rattle.tables.specs.Tables.{three, tables_sized};
ghost use Rattle.tables.specs.Port.{desk};
ghost use Rattle.rules.specs.declared.Refusal.TheVariants.{Size};
ghost use Rattle.rules.specs.Refusals.{done, reads, said};
ghost use Rattle.rules.specs.Families.{command, data_in, data_out};
ghost use Rattle.rules.specs.Calls.{word_call};

use commands::judge;
use rules::{Pod, Refusal};
use tables::Tables;

// The row of the tables' sizes.
fn word_gate(five: &[u16], six: &[u16], seven: &[u16]) -> Result<(), Refusal>
    ensures { MatchResult result (λ _. tables_sized (three five.now six.now seven.now) ≡ true) (λ why. (why ≡ Size) × (tables_sized (three five.now six.now seven.now) ≡ false)) }
{
    if !tables::sized(five, six, seven) {
        return Err(Refusal::Size);
    }
    Ok(())
}

pub fn command_word(
    pod: &mut Pod,
    word: u16,
    five: &mut [u16],
    six: &mut [u16],
    seven: &mut [u16],
) -> Result<(), Refusal>
    ensures { (l : List ℕ) → out (said (λ _. done) result) pod.new (desk (three five.new six.new seven.new) l) ≡ word_call (command word) (desk (three five.old six.old seven.old) l) pod.old }
{
    word_gate(five, six, seven)?;
    let five = five.as_mut_array::<64>().ok_or(Refusal::Size)?;
    let six = six.as_mut_array::<128>().ok_or(Refusal::Size)?;
    let seven = seven.as_mut_array::<64>().ok_or(Refusal::Size)?;
    judge(pod)?;
    let mut tables = Tables { five, six, seven };
    tables::command(&mut pod.words, pod.initialised, word, &mut tables);
    Ok(())
}

pub fn data_in(
    pod: &mut Pod,
    word: u16,
    load: &mut [u16; 64],
    five: &mut [u16],
    six: &mut [u16],
    seven: &mut [u16],
) -> Result<(), Refusal>
    ensures { out (said (λ _. done) result) pod.new (desk (three five.new six.new seven.new) load.new) ≡ word_call (data_in word) (desk (three five.old six.old seven.old) load.old) pod.old }
{
    word_gate(five, six, seven)?;
    let five = five.as_mut_array::<64>().ok_or(Refusal::Size)?;
    let six = six.as_mut_array::<128>().ok_or(Refusal::Size)?;
    let seven = seven.as_mut_array::<64>().ok_or(Refusal::Size)?;
    judge(pod)?;
    let mut tables = Tables { five, six, seven };
    tables::data_in(&mut pod.words, word, load, &mut tables);
    Ok(())
}

pub fn data_out(pod: &mut Pod, five: &[u16], six: &[u16], seven: &[u16]) -> Result<u16, Refusal>
    ensures { (l : List ℕ) → out (said (λ word. reads word) result) pod.new (desk (three five.now six.now seven.now) l) ≡ word_call data_out (desk (three five.now six.now seven.now) l) pod.old }
{
    word_gate(five, six, seven)?;
    let five = five.as_array::<64>().ok_or(Refusal::Size)?;
    let six = six.as_array::<128>().ok_or(Refusal::Size)?;
    let seven = seven.as_array::<64>().ok_or(Refusal::Size)?;
    judge(pod)?;
    Ok(tables::data_out(&mut pod.words, five, six, seven))
}
