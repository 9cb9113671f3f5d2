// What a command does to the pod: checks 7 to 9, and no bytes. A function for each command, with its checks in their order; where one
// fails, nothing has changed.
#![tactic(auto, unfolding(rows::specs::Rows::ran, rules::specs::Obey::reply_said, rules::specs::Obey::failure_number, rules::specs::Obey::obey_of, rules::specs::Obey::checks_of, rules::specs::Obey::done_by, rules::specs::Obey::initialised_pod, params::specs::Rules::write_of, params::specs::Rules::value_read))]

ghost use Rattle.std.specs.Prelude.{◌≡◌, true, cond};
ghost use Rattle.rows.specs.Rows.{out};
ghost use Rattle.tables.specs.Tables.{starts};
ghost use Rattle.tables.specs.Lent.{held, SameTables};
ghost use Rattle.rules.specs.State.{Lent, with_tables, sound_pod};
ghost use Rattle.rules.specs.Obey.{reply_said, receives, obey_of, report_of};
ghost use Rattle.commands.specs.Does.{Does, Awake, restarts};

use crate::changes::{remaining_of, ring_of};
use crate::fresh::fresh_pod;
use blocks::Store;
use packets::{Command, Fields, Report};
use rules::{Exchange, Failure, Pod, Reply};
use tables::Tables;

// Check 7.
fn awake(pod: &Pod) -> Result<(), Failure>
    ensures { Awake result pod.now }
{
    if pod.initialised {
        Ok(())
    } else {
        Err(Failure::Asleep)
    }
}

// The pod as from power, then awake with these fields; the tables are put to their starts by who has them (`restarts`).
fn initialise(pod: &mut Pod, fields: Fields) -> Result<Reply, Failure>
    ensures { (l : Lent) → out (reply_said result) pod.new (cond (restarts (Command.Initialise fields) result) (with_tables starts l) l) ≡ obey_of (Command.Initialise fields) l pod.old }
{
    if !packets::bounded(fields) {
        return Err(Failure::Outside);
    }
    *pod = fresh_pod();
    pod.initialised = true;
    pod.fields = fields;
    Ok(Reply::Success)
}

fn status(pod: &mut Pod) -> Result<Reply, Failure>
    ensures { Does result pod.new Command.Status pod.old }
{
    awake(pod)?;
    pod.exchange = Exchange::Status;
    Ok(Reply::Report)
}

fn update(pod: &mut Pod, fields: Fields) -> Result<Reply, Failure>
    ensures { Does result pod.new (Command.Update fields) pod.old }
{
    awake(pod)?;
    if !packets::bounded(fields) {
        return Err(Failure::Outside);
    }
    pod.fields = fields;
    Ok(Reply::Success)
}

fn write(pod: &mut Pod, id: u8, value: i32) -> Result<Reply, Failure>
    ensures { Does result pod.new (Command.Write id value) pod.old }
{
    awake(pod)?;
    pod.params = params::write(&pod.params, id, value).ok_or(Failure::Outside)?;
    Ok(Reply::Success)
}

fn read(pod: &mut Pod, id: u8) -> Result<Reply, Failure>
    ensures { Does result pod.new (Command.Read id) pod.old }
{
    awake(pod)?;
    let value = params::value(&pod.params, id).ok_or(Failure::Outside)?;
    pod.exchange = Exchange::Read;
    Ok(Reply::Value(id, value))
}

// The oldest block is sent, and kept until it is acknowledged.
fn receive(pod: &mut Pod, which: Store) -> Result<Reply, Failure>
    ensures { Does result pod.new (receives which) pod.old }
{
    awake(pod)?;
    if ring_of(pod, which).waiting == 0 {
        return Err(Failure::Nothing);
    }
    if remaining_of(&pod.fields, which) == 0 {
        return Err(Failure::Spent);
    }
    pod.exchange = Exchange::Receive(which);
    Ok(Reply::Block(which))
}

fn shutdown(pod: &mut Pod) -> Result<Reply, Failure>
    ensures { Does result pod.new Command.Shutdown pod.old }
{
    awake(pod)?;
    tables::close(&mut pod.words);
    pod.initialised = false;
    Ok(Reply::Success)
}

// A command leaves all that is lent, but for the tables where it restarts them: these are for the caller to put to their starts.
#[tactic(auto)]
pub fn obey_pod(pod: &mut Pod, command: Command) -> Result<Reply, Failure>
    ensures { (l : Lent) → out (reply_said result) pod.new (cond (restarts command result) (with_tables starts l) l) ≡ obey_of command l pod.old }
{
    match command {
        Command::Initialise(fields) => initialise(pod, fields),
        Command::Status => status(pod),
        Command::Update(fields) => update(pod, fields),
        Command::Write(id, value) => write(pod, id, value),
        Command::Read(id) => read(pod, id),
        Command::Priority => receive(pod, Store::Priority),
        Command::Data => receive(pod, Store::Ordinary),
        Command::Shutdown => shutdown(pod),
    }
}

// The same where the tables are lent too: they go to their starts.
#[tactic(auto)]
pub fn obey(pod: &mut Pod, tables: &mut Tables, command: Command) -> Result<Reply, Failure>
    ensures same { SameTables tables.old tables.new }
    ensures does { (l : Lent) → out (reply_said result) pod.new (with_tables (held tables.new) l) ≡ obey_of command (with_tables (held tables.old) l) pod.old }
{
    let reply = obey_pod(pod, command);
    if let (Command::Initialise(_), Ok(_)) = (command, reply) {
        tables.restart();
    }
    reply
}

// What a status answer shows.
#[tactic(auto, unfolding(rules::specs::Obey::report_of))]
pub fn report(pod: &Pod) -> Report
    requires { sound_pod pod.now ≡ true }
    ensures { result ≡ report_of pod.now }
{
    Report {
        mode: pod.fields.mode,
        flags: pod.fields.flags,
        priority: pod.priority.waiting as u16,
        ordinary: pod.ordinary.waiting as u32,
        ids: pod.params.missing,
    }
}
