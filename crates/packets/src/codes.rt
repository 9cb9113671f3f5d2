// The codes of the commands: the byte of each, the length of its packet and that of its answer.
ghost use Rattle.std.specs.Prelude.{◌≡◌};
ghost use Rattle.packets.specs.Commands.{code_row, command_row};
ghost use Rattle.packets.specs.Codes.{code_number, CodeRead};

use crate::Command;

#[derive(Clone, Copy, Debug, PartialEq, Eq)]
pub enum Code {
    Initialise = 0x90,
    Status = 0x91,
    Update = 0x92,
    Write = 0x93,
    Read = 0x94,
    Priority = 0x95,
    Data = 0x96,
    Shutdown = 0x9F,
}

// A byte that is no code.
#[derive(Clone, Copy, Debug, PartialEq, Eq)]
pub struct UnknownCode(pub u8);

impl From<Code> for u8 {
    ghost from_gives = { λ c b. b ≡ code_number c };

    #[tactic(auto, unfolding(crate::specs::Codes::code_number))]
    fn from(code: Code) -> u8 {
        code as u8
    }
}

impl TryFrom<u8> for Code {
    type Error = UnknownCode;

    ghost try_from_gives = { CodeRead };

    #[tactic(auto, unfolding(crate::specs::Codes::code_number, crate::specs::Commands::is_code, crate::specs::Commands::listed_in))]
    fn try_from(b: u8) -> Result<Code, UnknownCode> {
        match b {
            0x90 => Ok(Code::Initialise),
            0x91 => Ok(Code::Status),
            0x92 => Ok(Code::Update),
            0x93 => Ok(Code::Write),
            0x94 => Ok(Code::Read),
            0x95 => Ok(Code::Priority),
            0x96 => Ok(Code::Data),
            0x9F => Ok(Code::Shutdown),
            _ => Err(UnknownCode(b)),
        }
    }
}

#[tactic(auto, unfolding(crate::specs::Codes::code_number, crate::specs::Commands::code_row, crate::specs::Commands::find_in))]
impl Code {
    // The length of the command's packet. This and `answer` are matches, an arm for each length: the columns of `command_rows`.
    pub fn length(self) -> usize
        ensures { result ≡ (code_row (code_number self)).bytes }
    {
        match self {
            Code::Initialise | Code::Update => 25,
            Code::Write => 9,
            Code::Read => 5,
            Code::Status | Code::Priority | Code::Data | Code::Shutdown => 4,
        }
    }

    // The length of the command's answer when it is done.
    pub fn answer(self) -> usize
        ensures { result ≡ (code_row (code_number self)).answer }
    {
        match self {
            Code::Status => 22,
            Code::Read => 9,
            Code::Priority | Code::Data => 260,
            Code::Initialise | Code::Update | Code::Write | Code::Shutdown => 5,
        }
    }
}

impl Command {
    #[tactic(auto, unfolding(crate::specs::Codes::code_number, crate::specs::Commands::command_row, crate::specs::Commands::command_place))]
    pub fn code(self) -> Code
        ensures { code_number result ≡ (command_row self).code }
    {
        match self {
            Command::Initialise(_) => Code::Initialise,
            Command::Status => Code::Status,
            Command::Update(_) => Code::Update,
            Command::Write(_, _) => Code::Write,
            Command::Read(_) => Code::Read,
            Command::Priority => Code::Priority,
            Command::Data => Code::Data,
            Command::Shutdown => Code::Shutdown,
        }
    }
}
