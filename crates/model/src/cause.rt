// The causes (01, Causes) by name, each with 01's number: why a call is refused as a whole, or a command is. The definition has them by
// number, in specs/Causes.antt, each with its rule; which is which, specs/Told.antt says.
ghost use Rattle.std.specs.Prelude.{◌≡◌};
ghost use Rattle.model.specs.Told.{Numbered, Named, told};

#[derive(Clone, Copy, Debug, PartialEq, Eq)]
pub enum Cause {
    // the call
    BadChain = 1,
    BadStore = 2,
    LongStorage = 3,
    ShortAnswers = 4,
    AllChained = 5,
    BadRecord = 6,
    BadClass = 7,
    BadMap = 8,
    // the channel: program checks
    OtherFlags = 10,
    NoCount = 11,
    LeavesStorage = 12,
    NoCommand = 13,
    // DEFINE EXTENT
    ShortExtent = 20,
    SecondExtent = 21,
    BadMask = 22,
    Maintenance = 23,
    OtherSize = 24,
    FirstAfterLast = 25,
    PastDevice = 26,
    // LOCATE
    NoExtent = 30,
    ShortLocate = 31,
    BadModifier = 32,
    BadOperation = 33,
    BadCount = 34,
    BadReplication = 35,
    OutsideExtent = 36,
    Forbidden = 37,
    ReadOnly = 38,
    NoAlternate = 39,
    // the commands that move blocks
    IplNotFirst = 40,
    NoLocate = 41,
    OtherOperation = 42,
    // any command
    NotListed = 43,
    NotReady = 44,
    // an alternate given back
    PastBlocks = 50,
    NotMapped = 51,
}

impl From<Cause> for u8 {
    ghost from_gives = { Numbered };

    fn from(cause: Cause) -> u8 {
        cause as u8
    }
}

// The cause that has a number, as an answer's byte tells it; 0, and whatever else is no cause's, has none.
#[tactic(auto, unfolding(numbers::specs::Choice::one_of))]
impl TryFrom<u8> for Cause {
    type Error = ();

    ghost try_from_gives = { Named };

    fn try_from(number: u8) -> Result<Cause, ()> {
        match number {
            1 => Ok(Cause::BadChain),
            2 => Ok(Cause::BadStore),
            3 => Ok(Cause::LongStorage),
            4 => Ok(Cause::ShortAnswers),
            5 => Ok(Cause::AllChained),
            6 => Ok(Cause::BadRecord),
            7 => Ok(Cause::BadClass),
            8 => Ok(Cause::BadMap),
            10 => Ok(Cause::OtherFlags),
            11 => Ok(Cause::NoCount),
            12 => Ok(Cause::LeavesStorage),
            13 => Ok(Cause::NoCommand),
            20 => Ok(Cause::ShortExtent),
            21 => Ok(Cause::SecondExtent),
            22 => Ok(Cause::BadMask),
            23 => Ok(Cause::Maintenance),
            24 => Ok(Cause::OtherSize),
            25 => Ok(Cause::FirstAfterLast),
            26 => Ok(Cause::PastDevice),
            30 => Ok(Cause::NoExtent),
            31 => Ok(Cause::ShortLocate),
            32 => Ok(Cause::BadModifier),
            33 => Ok(Cause::BadOperation),
            34 => Ok(Cause::BadCount),
            35 => Ok(Cause::BadReplication),
            36 => Ok(Cause::OutsideExtent),
            37 => Ok(Cause::Forbidden),
            38 => Ok(Cause::ReadOnly),
            39 => Ok(Cause::NoAlternate),
            40 => Ok(Cause::IplNotFirst),
            41 => Ok(Cause::NoLocate),
            42 => Ok(Cause::OtherOperation),
            43 => Ok(Cause::NotListed),
            44 => Ok(Cause::NotReady),
            50 => Ok(Cause::PastBlocks),
            51 => Ok(Cause::NotMapped),
            _ => Err(()),
        }
    }
}

// The byte of an answer that tells the cause: 0 is acceptance.
pub fn byte_of(outcome: Result<(), Cause>) -> u8
    ensures { result ≡ told outcome }
{
    outcome.err().map_or(0, u8::from)
}
