// The line, whole.
ghost use Rattle.std.specs.Prelude.{◌+◌, ◌≤◌, length};
ghost use Rattle.items.specs.Output.{Written};
ghost use Rattle.decimals.specs.Printing.{spelled};
ghost use Rattle.lab_shows.specs.Shown.{front_numbers, back_numbers, shown_output, shown_list, shown_text, lent_of};

use crate::Lent;
use crate::checks::{all_checks, hand_crc};
use crate::parts::{first_numbers, last_numbers, marks, port_numbers};
use crate::runs::{put_address, put_words};
use decimals::put_numerals;
use items::Output;
use rules::Pod;

// The numbers of the state up to the marks of the parameters ..
fn put_front(out: &mut Output<'_>, pod: &Pod)
    requires { out.old.at + 726 ≤ length out.old.out.now }
    ensures { Written (spelled (front_numbers pod.now)) 726 out.old out.new }
{
    put_numerals(out, &first_numbers(pod));
    put_numerals(out, &pod.params.values);
    put_numerals(out, &marks(pod.params.written));
}

// .. and those behind.
fn put_back(out: &mut Output<'_>, pod: &Pod)
    requires { out.old.at + 358 ≤ length out.old.out.now }
    ensures { Written (spelled (back_numbers pod.now)) 358 out.old out.new }
{
    put_numerals(out, &port_numbers(pod));
    put_address(out, pod.words.given);
    put_numerals(out, &last_numbers(pod));
}

// .. and the output half of the pipe, behind the checks ..
fn put_output(out: &mut Output<'_>, pod: &Pod)
    requires { out.old.at + 47 ≤ length out.old.out.now }
    ensures { Written (shown_output pod.now) 47 out.old out.new }
{
    let output = pod.pipe.output;
    put_numerals(out, &[u64::from(output.hand), u64::from(output.timeouts)]);
    put_words(out, &[hand_crc(output)]);
}

// .. and the kept list, with the line's end.
fn put_list(out: &mut Output<'_>, pod: &Pod)
    requires { out.old.at + 33 ≤ length out.old.out.now }
    ensures { Written (shown_list pod.now) 33 out.old out.new }
{
    put_numerals(out, &pod.params.missing);
    out.append(b"\n");
}

// The state, and the memory as it is lent.
pub fn show(pod: &Pod, lent: &Lent, out: &mut Output<'_>)
    requires sizes { (length lent.now.five.now ≤ 128) × (length lent.now.six.now ≤ 128) × (length lent.now.seven.now ≤ 128) }
    requires room { out.old.at + 1200 ≤ length out.old.out.now }
    ensures { Written (shown_text pod.now (lent_of lent.now)) 1200 out.old out.new }
{
    out.append(b"V");
    put_front(out, pod);
    put_back(out, pod);
    put_words(out, &all_checks(pod, lent));
    put_output(out, pod);
    put_list(out, pod);
}
