// How a command ends, by its cause.
ghost use Rattle.std.specs.Prelude.{◌≡◌};
ghost use Rattle.model.specs.Causes.{kind_of};
ghost use Rattle.model.specs.Told.{told};

use crate::cause::Cause;

// Accepted, or refused: by the channel, or by the unit.
#[derive(Clone, Copy, Debug, PartialEq, Eq)]
pub enum Kind {
    Accepted,
    ProgramCheck,
    UnitCheck,
}

impl Kind {
    #[tactic(auto, unfolding(numbers::specs::Choice::one_of))]
    pub fn of(outcome: Result<(), Cause>) -> Kind
        ensures { result ≡ kind_of (told outcome) }
    {
        match outcome {
            Ok(()) => Kind::Accepted,
            Err(Cause::OtherFlags | Cause::NoCount | Cause::LeavesStorage | Cause::NoCommand) => {
                Kind::ProgramCheck
            }
            Err(_) => Kind::UnitCheck,
        }
    }

    // Of a cause by its number, or 0. As in the definition, a number that is no cause's is the unit's.
    #[tactic(auto, unfolding(numbers::specs::Choice::one_of))]
    pub fn numbered(cause: u8) -> Kind
        ensures { result ≡ kind_of cause }
    {
        match cause {
            0 => Kind::Accepted,
            10 | 11 | 12 | 13 => Kind::ProgramCheck,
            _ => Kind::UnitCheck,
        }
    }
}
