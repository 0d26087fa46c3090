// The CCWs that lead up to what a vector is about. A CCW is one word: command, data address, flags,
// a byte that is ignored, count. LAST_ has neither flag 80 nor flag 40, and so ends its chain.
// Parameters stand at the start of main storage: 16 bytes for DEFINE EXTENT at 0, 8 for LOCATE at
// 16, 8 for a second LOCATE at 24. Data begins at 32.

pub const NOOP: u64 = 0x03_000000_40_00_0001;

pub const LAST_NOOP: u64 = 0x03_000000_00_00_0001;

pub const DEFINE: u64 = 0x63_000000_40_00_0010;

pub const LAST_DEFINE: u64 = 0x63_000000_00_00_0010;

pub const LOCATE: u64 = 0x43_000010_40_00_0008;

pub const LAST_LOCATE: u64 = 0x43_000010_00_00_0008;

pub const LOCATE_2: u64 = 0x43_000018_40_00_0008;

// One block.
pub const LAST_READ: u64 = 0x42_000020_00_00_0200;

pub const LAST_WRITE: u64 = 0x41_000020_00_00_0200;

// READ IPL of one byte: flag 20, so that the chain goes on.
pub const IPL_BYTE: u64 = 0x02_000020_60_00_0001;
