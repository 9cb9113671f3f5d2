// Power on, and the deadline of an exchange.
ghost use Rattle.std.specs.Prelude.{◌≡◌, []};
ghost use Rattle.rows.specs.Rows.{out};
ghost use Rattle.tables.specs.Tables.{three};
ghost use Rattle.pipe.specs.Input.{sent_packet};
ghost use Rattle.rules.specs.Refusals.{done, said};
ghost use Rattle.rules.specs.Families.{deadline};
ghost use Rattle.rules.specs.Calls.{power_call, lone_call};

use commands::{fresh_pod, judge, shut};
use rules::{Pod, Refusal};
use tables::Tables;

// The state fresh from power, with the tables at their starts.
// They are lent as slices of any length, which the row of their sizes judges, by `tables::sized`, and become arrays as in word_port.
#[tactic(auto, unfolding(rows::specs::Rows::ran, rules::specs::Refusals::said, rules::specs::Refusals::refusal_number, rules::specs::Calls::power_call, tables::specs::Tables::tables_sized))]
pub fn power_on(
    pod: &mut Pod,
    five: &mut [u16],
    six: &mut [u16],
    seven: &mut [u16],
) -> Result<(), Refusal>
    ensures { out (said (λ _. done) result) pod.new (three five.new six.new seven.new) ≡ power_call (three five.old six.old seven.old) pod.old }
{
    if !tables::sized(five, six, seven) {
        return Err(Refusal::Size);
    }
    let five = five.as_mut_array::<64>().ok_or(Refusal::Size)?;
    let six = six.as_mut_array::<128>().ok_or(Refusal::Size)?;
    let seven = seven.as_mut_array::<64>().ok_or(Refusal::Size)?;
    Tables { five, six, seven }.restart();
    *pod = fresh_pod();
    Ok(())
}

// 2 ms passed: an open exchange is closed, and nothing is sent.
#[tactic(auto, unfolding(rows::specs::Rows::ran, rules::specs::Refusals::said, rules::specs::Refusals::refusal_number, rules::specs::Calls::lone_call, rules::specs::Families::lone_of))]
pub fn deadline(pod: &mut Pod) -> Result<(), Refusal>
    ensures { out (said (λ _. done) result) pod.new (sent_packet []) ≡ lone_call deadline pod.old }
{
    judge(pod)?;
    shut(pod);
    Ok(())
}
