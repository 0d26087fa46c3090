// A channel command word, taken apart: its command byte, and the rest, a piece of a command's data area.
ghost use Rattle.std.specs.Prelude.{◌≡◌};
ghost use Rattle.numbers.specs.Bits.{bit};
ghost use Rattle.model.specs.Names.{chain_data, chain_command, suppress_length};
ghost use Rattle.model.specs.Causes.{other_flags};

// CCW byte 4.
#[derive(Clone, Copy)]
pub struct Flags(pub u8);

impl Flags {
    pub const CHAIN_DATA: u8 = 0x80;

    pub const CHAIN_COMMAND: u8 = 0x40;

    pub const SUPPRESS_LENGTH: u8 = 0x20;

    // All that a chain of ours may not have on.
    pub const OTHERS: u8 = 0x1F;

    // The next CCW is one more piece of the same command.
    pub fn continued(self) -> bool
        ensures { result ≡ bit self.0 chain_data }
    {
        self.0 & Flags::CHAIN_DATA != 0
    }

    pub fn chained(self) -> bool
        ensures { result ≡ bit self.0 chain_command }
    {
        self.0 & Flags::CHAIN_COMMAND != 0
    }

    pub fn suppressed(self) -> bool
        ensures { result ≡ bit self.0 suppress_length }
    {
        self.0 & Flags::SUPPRESS_LENGTH != 0
    }

    // A flag other than the three is on.
    pub fn others(self) -> bool
        ensures { result ≡ other_flags self.0 }
    {
        self.0 & Flags::OTHERS != 0
    }
}

#[derive(Clone, Copy)]
pub struct Piece {
    pub address: usize,
    pub count: usize,
    pub flags: Flags,
}
