// The numbers of a device, handed down from the ways in to the blocks.
ghost use Rattle.std.specs.Prelude.{◌≡◌};
ghost use Rattle.model.specs.Chain.{class_a};

use crate::sizes;

// Any two numbers, as in the definition, whose laws speak of all devices: so what a usable one is (`Usable`) is asked, and is no invariant of the type.
#[derive(Clone, Copy)]
pub struct Device {
    // the bytes of a block
    pub block: usize,
    // the blocks behind its primaries
    pub alternates: usize,
}

impl Device {
    // The device of every call, by its alternates, until a caller says another block size.
    pub fn class_a(alternates: u32) -> Device
        ensures { result ≡ class_a alternates }
    {
        Device {
            block: sizes::BLOCK,
            alternates: alternates as usize,
        }
    }
}
