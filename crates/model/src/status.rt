// The two statuses of an answer, with their bits, by how the command ended.
ghost use Rattle.std.specs.Prelude.{◌≡◌, false};
ghost use Rattle.model.specs.Answer.{unit_status, channel_by};

use crate::kind::Kind;

// What the unit presents, gathered over a command.
#[derive(Clone, Copy)]
pub struct UnitStatus(pub u8);

impl UnitStatus {
    pub const CHANNEL_END: u8 = 0x08;

    pub const DEVICE_END: u8 = 0x04;

    pub const UNIT_CHECK: u8 = 0x02;

    // Nothing, where the unit did not see the command.
    pub fn of(kind: Kind) -> UnitStatus
        ensures { result.0 ≡ unit_status kind }
    {
        match kind {
            Kind::Accepted => UnitStatus(UnitStatus::CHANNEL_END + UnitStatus::DEVICE_END),
            Kind::ProgramCheck => UnitStatus(0),
            Kind::UnitCheck => UnitStatus(
                UnitStatus::CHANNEL_END + UnitStatus::DEVICE_END + UnitStatus::UNIT_CHECK,
            ),
        }
    }
}

// What the channel adds; a wrong length, later.
#[derive(Clone, Copy)]
pub struct ChannelStatus(pub u8);

impl ChannelStatus {
    pub const PROGRAM_CHECK: u8 = 0x20;

    pub const INCORRECT_LENGTH: u8 = 0x40;

    pub fn of(kind: Kind) -> ChannelStatus
        ensures { result.0 ≡ channel_by kind false }
    {
        match kind {
            Kind::Accepted => ChannelStatus(0),
            Kind::ProgramCheck => ChannelStatus(ChannelStatus::PROGRAM_CHECK),
            Kind::UnitCheck => ChannelStatus(0),
        }
    }
}
