// A command or an acknowledgement is built into a lent room.
ghost use Rattle.std.specs.Prelude.{◌≡◌, ◌≤◌, true, [], ◌∷◌, length, MatchResult};
ghost use Rattle.rows.specs.Rows.{out, First};
ghost use Rattle.packets.specs.Answers.{Written};
ghost use Rattle.airframe.specs.Building.{fields_fit, command_fits, first_fits, acknowledgement_bytes, command_built, acknowledgement_built, field_row, room_row, refusal_number, built_said};

use crate::{Form, Refusal};
use packets::{Command, Fields};

// Whether fields are within document 01's bounds, and the seconds in their 22 bits.
#[tactic(auto, unfolding(crate::specs::Building::fields_fit))]
fn fields_fit(f: Fields) -> bool
    ensures { result ≡ fields_fit f }
{
    packets::bounded(f) & (f.seconds < 0x40_0000)
}

// Whether every field of a command is within its bounds.
#[tactic(auto, unfolding(crate::specs::Building::command_fits))]
fn fits(command: Command) -> bool
    ensures { result ≡ command_fits command }
{
    match command {
        Command::Initialise(f) => fields_fit(f),
        Command::Status => true,
        Command::Update(f) => fields_fit(f),
        Command::Write(id, value) => params::in_bounds(id, value),
        Command::Read(id) => params::is_id(id),
        Command::Priority => true,
        Command::Data => true,
        Command::Shutdown => true,
    }
}

// The fields are judged first, and then the room.
#[tactic(auto, unfolding(crate::specs::Building::refusal_number))]
fn judged(inside: bool, room: &[u8]) -> Result<(), Refusal>
    ensures { MatchResult result (λ _. (inside ≡ true) × (25 ≤ length room.now)) (λ why. First (refusal_number why) (field_row inside ∷ room_row room.now ∷ [])) }
{
    if !inside {
        return Err(Refusal::Field);
    }
    if room.len() < packets::COMMAND {
        return Err(Refusal::Room);
    }
    Ok(())
}

// A command's packet, from the start of the room on.
pub fn build(command: Command, room: &mut [u8]) -> Result<usize, Refusal>
    ensures { out (built_said result) tt room.new ≡ command_built command room.old }
{
    judged(fits(command), room)?;
    Ok(packets::write_command(room, command))
}

// Whether a byte may stand first in an acknowledgement.
// By the range and no `Code`: `first_fits` says 0x90 to 0x9F, and not each of these is a code.
#[tactic(auto, unfolding(crate::specs::Building::first_fits))]
fn first_fits(first: u8) -> bool
    ensures { result ≡ first_fits first }
{
    (0x90 <= first) & (first <= 0x9F)
}

// An acknowledgement has the bytes of a short answer.
#[tactic(auto, unfolding(crate::specs::Building::acknowledgement_bytes))]
fn write_form(room: &mut [u8], first: u8, form: Form) -> usize
    requires { 25 ≤ length room.old }
    ensures { Written (acknowledgement_bytes first form) room.old room.new result }
{
    match form {
        Form::Taken => packets::write_done(room, first),
        Form::Failed(error) => packets::write_error(room, first, error),
    }
}

// An acknowledgement, from the start of the room on.
pub fn acknowledge(first: u8, form: Form, room: &mut [u8]) -> Result<usize, Refusal>
    ensures { out (built_said result) tt room.new ≡ acknowledgement_built first form room.old }
{
    judged(first_fits(first), room)?;
    Ok(write_form(room, first, form))
}
