// The packet call: a packet is read, obeyed and answered.
ghost use Rattle.std.specs.Prelude.{◌≡◌, true, cond, ◌≤◌, length};
ghost use Rattle.rows.specs.Rows.{out, gave, given};
ghost use Rattle.packets.specs.Reading.{packet_read};
ghost use Rattle.packets.specs.Answers.{Written};
ghost use Rattle.tables.specs.Tables.{three, starts};
ghost use Rattle.tables.specs.Lent.{held, SameTables};
ghost use Rattle.rules.specs.State.{Lent, with_stores, with_tables, sound_pod};
ghost use Rattle.rules.specs.Refusals.{bytes as many, said};
ghost use Rattle.rules.specs.Obey.{reply_said, shut, obey_of};
ghost use Rattle.rules.specs.Calls.{roomed, replied, packet_heard, reply_bytes, packet_call};
ghost use Rattle.commands.specs.Does.{restarts};
ghost use Rattle.packet_port.specs.Port.{lent_by, LentStores, Waits, Answers, sized_call};

use commands::{acknowledged, judge, obey_pod, report, ring_of, shut};
use packets::{Command, Parsed};
use rules::{Failure, Pod, Refusal, Reply};
use tables::Tables;

// The stores that are lent.
#[derive(Clone, Copy)]
struct Stores<'a> {
    priority: &'a [u8; 4096],
    ordinary: &'a [u8; 32768],
}

// The bytes of what a command gave; their count.
// The room is a slice with a clause on its length, here and below: it is lent at any length from 260 on, and `Written` says of all of it
// what it is afterwards. Pod, tables, room and stores stand by themselves: `shut`, `obey_pod` and `write_reply` take other ones of them, and
// `Answers` names each.
#[tactic(auto, using(crate::proofs::Answering::ring_sound, crate::proofs::Answering::block_whole, crate::proofs::Answering::stores_in), unfolding(rules::specs::Calls::reply_bytes, rules::specs::Obey::reply_said, rules::specs::Obey::failure_number, rules::specs::Calls::meant_body, packets::specs::Answers::done_answer, packets::specs::Answers::status_answer, packets::specs::Answers::value_answer, packets::specs::Answers::data_answer))]
fn write_reply(
    pod: &Pod,
    reply: Result<Reply, Failure>,
    first: u8,
    room: &mut [u8],
    stores: Stores,
) -> usize
    requires ready { (260 ≤ length room.old) × (sound_pod pod.now ≡ true) }
    requires waits { Waits (reply_said reply) pod.now }
    ensures { (l : Lent) → Written (reply_bytes first (reply_said reply) pod.now (lent_by stores.entry l)) room.old room.new result }
{
    match reply {
        Err(failure) => packets::write_error(room, first, u8::from(failure)),
        Ok(Reply::Success) => packets::write_done(room, first),
        Ok(Reply::Report) => packets::write_status(room, first, report(pod)),
        Ok(Reply::Value(id, value)) => packets::write_value(room, first, id, value),
        Ok(Reply::Block(which)) => {
            let Stores { priority, ordinary } = stores;
            let block = blocks::oldest(which, ring_of(pod, which), priority, ordinary);
            packets::write_data(room, first, block)
        }
    }
}

// The tables go to their starts where a command restarts them, or stay.
fn restart(command: Command, reply: Result<Reply, Failure>, tables: &mut Tables)
    ensures same { SameTables tables.old tables.new }
    ensures does { held tables.new ≡ cond (restarts command reply) starts (held tables.old) }
{
    if let (Command::Initialise(_), Ok(_)) = (command, reply) {
        tables.restart();
    }
}

// A command: an open exchange is closed first. Its answer begins with `first`, the packet's own first byte.
#[tactic(auto, using(crate::proofs::Answering::obeyed_sound, crate::proofs::Answering::obeyed_waits, crate::proofs::Answering::replied_is))]
fn asked(
    pod: &mut Pod,
    tables: &mut Tables,
    command: Command,
    first: u8,
    room: &mut [u8],
    stores: Stores,
) -> usize
    requires { (260 ≤ length room.old) × (sound_pod pod.old ≡ true) }
    ensures same { SameTables tables.old tables.new }
    ensures does { (l : Lent) → Answers result pod.new room.new (with_tables (held tables.new) (lent_by stores.entry l)) room.old (replied first (obey_of command (with_tables (held tables.old) (lent_by stores.entry l)) (shut pod.old))) }
{
    shut(pod);
    let reply = obey_pod(pod, command);
    restart(command, reply, tables);
    write_reply(pod, reply, first, room, stores)
}

// A packet on a sound pod: what it is read as decides who answers.
// No answer is a count of 0, as `packet_call` has it (the length of no bytes).
#[tactic(auto, using(packets::proofs::Laws::read_decided, crate::proofs::Answering::written_is), unfolding(rules::specs::Calls::packet_heard, rules::specs::Calls::answered, rules::specs::Calls::spoken_bytes, rules::specs::Calls::reply_bytes))]
fn hear(pod: &mut Pod, tables: &mut Tables, bytes: &[u8], room: &mut [u8], stores: Stores) -> usize
    requires { (260 ≤ length room.old) × (sound_pod pod.old ≡ true) }
    ensures same { SameTables tables.old tables.new }
    ensures does { (l : Lent) → Answers result pod.new room.new (with_tables (held tables.new) (lent_by stores.entry l)) room.old (packet_heard (packet_read bytes.now) (with_tables (held tables.old) (lent_by stores.entry l)) pod.old) }
{
    match packets::read(bytes) {
        Parsed::Nothing => 0,
        Parsed::Error(first, number) => {
            shut(pod);
            packets::write_error(room, first, number)
        }
        Parsed::Acknowledgement(first, one) => {
            acknowledged(pod, first, one);
            0
        }
        Parsed::Asked(command) => asked(pod, tables, command, bytes[0], room, stores),
    }
}

// The rows of the answer room and of the stores.
#[tactic(auto, using(gates::proofs::Told::gating), unfolding(rules::specs::Refusals::refusal_number, blocks::specs::Stores::store_sized))]
fn lent<'a>(room: &[u8], priority: &'a [u8], ordinary: &'a [u8]) -> Result<Stores<'a>, Refusal>
    ensures { LentStores result room.now priority.now ordinary.now }
{
    if room.len() < packets::ROOM {
        return Err(Refusal::Room);
    }
    let priority = priority.as_array::<4096>().ok_or(Refusal::Size)?;
    let ordinary = ordinary.as_array::<32768>().ok_or(Refusal::Size)?;
    Ok(Stores { priority, ordinary })
}

// A packet whose room and stores have their sizes.
// The tables, of the sizes that `tables::sized` judges, become arrays as in word_port, a line for each.
#[tactic(auto, unfolding(rows::specs::Rows::ran, rules::specs::Refusals::said, rules::specs::Refusals::refusal_number, tables::specs::Tables::tables_sized, crate::specs::Port::sized_call))]
fn heard(
    pod: &mut Pod,
    bytes: &[u8],
    room: &mut [u8],
    stores: Stores,
    five: &mut [u16],
    six: &mut [u16],
    seven: &mut [u16],
) -> Result<usize, Refusal>
    requires { 260 ≤ length room.old }
    ensures { (l : Lent) → out (said (λ count. many count) result) pod.new (roomed room.new (with_tables (three five.new six.new seven.new) (lent_by stores.entry l))) ≡ sized_call bytes.now (roomed room.old (with_tables (three five.old six.old seven.old) (lent_by stores.entry l))) pod.old }
{
    if !tables::sized(five, six, seven) {
        return Err(Refusal::Size);
    }
    let five = five.as_mut_array::<64>().ok_or(Refusal::Size)?;
    let six = six.as_mut_array::<128>().ok_or(Refusal::Size)?;
    let seven = seven.as_mut_array::<64>().ok_or(Refusal::Size)?;
    judge(pod)?;
    let mut tables = Tables { five, six, seven };
    Ok(hear(pod, &mut tables, bytes, room, stores))
}

// All that is lent comes as slices of any length, since the first two rows are of their sizes.
#[tactic(auto, unfolding(rules::specs::Refusals::said, rules::specs::Calls::packet_call))]
pub fn packet(
    pod: &mut Pod,
    bytes: &[u8],
    room: &mut [u8],
    priority: &[u8],
    ordinary: &[u8],
    five: &mut [u16],
    six: &mut [u16],
    seven: &mut [u16],
) -> Result<usize, Refusal>
    ensures { (l : Lent) → out (said (λ count. many count) result) pod.new (roomed room.new (with_tables (three five.new six.new seven.new) (with_stores priority.now ordinary.now l))) ≡ packet_call bytes.now (roomed room.old (with_tables (three five.old six.old seven.old) (with_stores priority.now ordinary.now l))) pod.old }
{
    let stores = lent(room, priority, ordinary)?;
    heard(pod, bytes, room, stores, five, six, seven)
}
