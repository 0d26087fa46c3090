// Counts of blocks, what the parameters of DEFINE EXTENT and LOCATE say, and the address rule.
ghost use Rattle.std.specs.Prelude.{◌≡◌, ◌≤◌};
ghost use Rattle.model.specs.Parameters.{address};

// Counts from the device's first block.
#[derive(Clone, Copy, Default)]
pub struct Offset(pub u32);

// Counts from the data set's first block.
#[derive(Clone, Copy, Default)]
pub struct Displacement(pub u32);

#[derive(Clone, Copy, Default)]
pub struct Extent {
    pub mask: u32,
    pub offset: Offset,
    pub first: Displacement,
    pub last: Displacement,
}

impl Extent {
    // The address rule, the one place where an offset and a displacement meet. Two u32 in a u64: no sum wraps.
    pub fn address(self, d: Displacement) -> u64
        requires { self.first.0 ≤ d.0 }
        ensures { result ≡ address self d }
    {
        let within = d.0 - self.first.0;
        (within as u64) + (self.offset.0 as u64)
    }
}

#[derive(Clone, Copy, Default)]
pub struct Located {
    pub operation: u32,
    pub displacement: Displacement,
    pub blocks: u16,
}
