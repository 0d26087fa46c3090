// The commands (01, The unit and its edges; 002, 2.0): their codes, and by their codes the commands.
ghost use Rattle.std.specs.Prelude.{◌≡◌};
ghost use Rattle.numbers.specs.Choice.{◌=?◌};
ghost use Rattle.model.specs.Names.{NO_OPERATION};
ghost use Rattle.model.specs.Told.{Listed};

use crate::cause::Cause;

pub const NO_OPERATION: u8 = 0x03;

pub const DEFINE_EXTENT: u8 = 0x63;

pub const LOCATE: u8 = 0x43;

pub const READ: u8 = 0x42;

pub const WRITE: u8 = 0x41;

pub const READ_IPL: u8 = 0x02;

pub const SENSE: u8 = 0x04;

pub const SENSE_TYPE: u8 = 0xE4;

pub const READ_LOG: u8 = 0xA4;

#[derive(Clone, Copy, Debug, PartialEq, Eq)]
pub enum Command {
    NoOperation,
    DefineExtent,
    Locate,
    Read,
    Write,
    ReadIpl,
    Sense,
    SenseType,
    ReadLog,
}

// A code that is none of theirs is a cause.
#[tactic(auto, unfolding(numbers::specs::Choice::one_of))]
impl TryFrom<u8> for Command {
    type Error = Cause;

    ghost try_from_gives = { Listed };

    fn try_from(code: u8) -> Result<Command, Cause> {
        match code {
            NO_OPERATION => Ok(Command::NoOperation),
            DEFINE_EXTENT => Ok(Command::DefineExtent),
            LOCATE => Ok(Command::Locate),
            READ => Ok(Command::Read),
            WRITE => Ok(Command::Write),
            READ_IPL => Ok(Command::ReadIpl),
            SENSE => Ok(Command::Sense),
            SENSE_TYPE => Ok(Command::SenseType),
            READ_LOG => Ok(Command::ReadLog),
            _ => Err(Cause::NotListed),
        }
    }
}

// The code is that of the command which has no data area and no length.
#[tactic(auto, unfolding(numbers::specs::Choice::one_of))]
pub fn is_no_operation(code: u8) -> bool
    ensures { result ≡ (code =? NO_OPERATION) }
{
    matches!(Command::try_from(code), Ok(Command::NoOperation))
}
