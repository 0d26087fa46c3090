// The sense of a refusal, from one table by cause; `Sense::of` is the way in. docs/SENSE.md says why each row is what it is.
#![tactic(auto)]

ghost use Rattle.std.specs.Prelude.{◌≡◌};
ghost use Rattle.model.specs.Told.{cause_number};
ghost use Rattle.sense_table.specs.Sensed.{row_of, sense_showing, no_sense, sense_bytes};

use model::cause::Cause;
use model::sizes;
use numbers::bytes3;
use slices::put_at;

// Sense bytes 0, 1 and 7, side by side in one number.
#[derive(Clone, Copy)]
pub struct SenseRow(pub u32);

const NO_SENSE: SenseRow = SenseRow(0x00_00_00);

const INVALID_COMMAND: SenseRow = SenseRow(0x80_00_01);

const INVALID_SEQUENCE: SenseRow = SenseRow(0x80_00_02);

const SHORT_ARGUMENT: SenseRow = SenseRow(0x80_00_03);

const INVALID_ARGUMENT: SenseRow = SenseRow(0x80_00_04);

const SIZE_EXCEPTION: SenseRow = SenseRow(0x80_40_04);

const FILE_PROTECTED: SenseRow = SenseRow(0x80_04_04);

const WRITE_INHIBITED: SenseRow = SenseRow(0x80_02_00);

const OPERATION_INCOMPLETE: SenseRow = SenseRow(0x80_01_0C);

const NOT_ON_LINE: SenseRow = SenseRow(0x40_00_10);

// The row of each cause: the table is held against the definition here, once. A cause that is no unit check leaves no sense.
#[tactic(auto, unfolding(model::specs::Sense::row_in, numbers::specs::Choice::pick))]
fn row_of(cause: Cause) -> SenseRow
    ensures { result ≡ row_of (cause_number cause) }
{
    match cause {
        Cause::ShortExtent => SHORT_ARGUMENT,
        Cause::SecondExtent => INVALID_SEQUENCE,
        Cause::BadMask => INVALID_ARGUMENT,
        Cause::Maintenance => INVALID_ARGUMENT,
        Cause::OtherSize => SIZE_EXCEPTION,
        Cause::FirstAfterLast => INVALID_ARGUMENT,
        Cause::PastDevice => INVALID_ARGUMENT,
        Cause::NoExtent => INVALID_SEQUENCE,
        Cause::ShortLocate => SHORT_ARGUMENT,
        Cause::BadModifier => INVALID_ARGUMENT,
        Cause::BadOperation => INVALID_ARGUMENT,
        Cause::BadCount => INVALID_ARGUMENT,
        Cause::BadReplication => INVALID_ARGUMENT,
        Cause::OutsideExtent => FILE_PROTECTED,
        Cause::Forbidden => INVALID_ARGUMENT,
        Cause::ReadOnly => WRITE_INHIBITED,
        Cause::NoAlternate => OPERATION_INCOMPLETE,
        Cause::IplNotFirst => INVALID_SEQUENCE,
        Cause::NoLocate => INVALID_SEQUENCE,
        Cause::OtherOperation => INVALID_SEQUENCE,
        Cause::NotListed => INVALID_COMMAND,
        Cause::NotReady => NOT_ON_LINE,
        _ => NO_SENSE,
    }
}

// The sense that a command leaves: bytes 0 to 7 by the table, 8 to 15 the parameters that its cause shows. The other eight are zeros.
#[derive(Clone, Copy)]
pub struct Sense {
    pub head: [u8; Sense::PARAMETERS],
    pub parameters: [u8; sizes::LOCATE],
}

impl Sense {
    // Where format and message stand, and where the parameters begin.
    pub const FORMAT_MESSAGE: usize = 7;

    pub const PARAMETERS: usize = 8;

    // Of a command that is accepted.
    pub fn none() -> Sense
        ensures { result ≡ no_sense }
    {
        Sense {
            head: [0u8; Sense::PARAMETERS],
            parameters: [0u8; sizes::LOCATE],
        }
    }

    // Of a cause that shows these parameters.
    pub fn of(cause: Cause, parameters: [u8; sizes::LOCATE]) -> Sense
        ensures { result ≡ sense_showing (cause_number cause) parameters }
    {
        let row = row_of(cause);
        let bytes = bytes3(row.0 as usize);
        let mut head = [0u8; Sense::PARAMETERS];
        head[0] = bytes[0];
        head[1] = bytes[1];
        head[Sense::FORMAT_MESSAGE] = bytes[2];
        Sense {
            head: head,
            parameters: parameters,
        }
    }

    // The same of a cause by its number. 0, and whatever else is no cause's, has no row.
    pub fn numbered(cause: u8, parameters: [u8; sizes::LOCATE]) -> Sense
        ensures { result ≡ sense_showing cause parameters }
    {
        match Cause::try_from(cause) {
            Ok(named) => Sense::of(named, parameters),
            Err(()) => Sense {
                parameters,
                ..Sense::none()
            },
        }
    }

    // Its 24 bytes.
    pub fn bytes(self) -> [u8; sizes::SENSE]
        ensures { result ≡ sense_bytes self }
    {
        let head = self.head;
        let parameters = self.parameters;
        let mut sense = [0u8; sizes::SENSE];
        put_at(&mut sense, 0, &head, Sense::PARAMETERS);
        put_at(&mut sense, Sense::PARAMETERS, &parameters, sizes::LOCATE);
        sense
    }
}
