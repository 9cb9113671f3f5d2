// The status word, which is lent no table.
ghost use Rattle.std.specs.Prelude.{◌≡◌};
ghost use Rattle.rows.specs.Rows.{out};
ghost use Rattle.tables.specs.Port.{Desk};
ghost use Rattle.rules.specs.Refusals.{reads, said};
ghost use Rattle.rules.specs.Families.{status};
ghost use Rattle.rules.specs.Calls.{word_call};

use commands::judge;
use rules::{Pod, Refusal};

#[tactic(auto, unfolding(rows::specs::Rows::ran, rules::specs::Refusals::said, rules::specs::Refusals::refusal_number, rules::specs::Calls::word_call, rules::specs::Families::word_of, rules::specs::Families::word_lent, tables::specs::Tables::tables_sized))]
pub fn status_word(pod: &mut Pod) -> Result<u16, Refusal>
    ensures { (d : Desk) → out (said (λ word. reads word) result) pod.new d ≡ word_call status d pod.old }
{
    judge(pod)?;
    Ok(tables::status(&mut pod.words))
}
