// Program checks (01, causes 13, 10, 11, 12, in this order): unit status 00, channel status 20, the
// residual is the whole count, and the unit record is unchanged. 2.1 leaves sense pending, and up
// to 2.11 it must stay: clearing it on a program check is one of 01's errors of driver writers.
use crate::ccws::{LAST_DEFINE, LAST_NOOP};

pub const VECTORS: [u64; 40] = [
    // 2.1 Command 01: its low four bits are neither 0 nor 8, so the unit sees it. It is not listed:
    // 43, sense 80 00 01.
    0x00_0008_0008_0001_00,
    0x01_000000_00_00_0001,
    // 2.2 Command 00, low four bits 0: 13.
    0x04_0008_0008_0001_00,
    0x00_000000_00_00_0001,
    // 2.3 Command 08, low four bits 8 (transfer in channel, which 01 leaves out): 13.
    0x04_0008_0008_0001_00,
    0x08_000000_00_00_0001,
    // 2.4 NO-OPERATION with flag 80 (data chaining), and its second piece: 10 does not cover flag 80
    // (02, ask 2). The first piece alone is reached, and its own count is left.
    0x04_0010_0010_0000_00,
    0x03_000000_80_00_0002,
    LAST_NOOP,
    // 2.5 NO-OPERATION with flag 10, the bit next to flag 20: 10.
    0x04_0008_0008_0000_00,
    0x03_000000_10_00_0001,
    // 2.6 Flags 40 and 20 together, then 20 alone: both run. Byte 5 is FF in the first, and
    // ignored.
    0x04_0010_0010_0000_00,
    0x03_000000_60_FF_0001,
    0x03_000000_20_00_0001,
    // 2.7 NO-OPERATION with count 0: 11, which applies to NO-OPERATION too.
    0x04_0008_0008_0000_00,
    0x03_000000_00_00_0000,
    // 2.8 SENSE TYPE to bytes 26 to 32 of a main storage of 32, whose last is 31: 12. Nothing is
    // moved.
    0x04_0008_0008_0020_01,
    0xE4_00001A_00_00_0007,
    0xD_001A_0006,
    // 2.9 Seven bytes from 25 on would fit, and no more can move; but the count is 8, and 12 goes
    // by the whole count. Flag 20 does not help.
    0x04_0008_0008_0020_00,
    0xE4_000019_20_00_0008,
    // 2.10 Two bytes from FFFFFF, the last address there is: 12. The area does not go on at 0.
    0x04_0008_0008_0020_00,
    0xE4_FFFFFF_20_00_0002,
    // 2.11 NO-OPERATION at FFFFFF with count FFFF and no main storage: 12 is not tested for 03. The
    // residual is the count.
    0x04_0008_0008_0000_00,
    0x03_FFFFFF_00_00_FFFF,
    // 2.12 SENSE TYPE to bytes 25 to 31, the last seven: run. The unit has seen the command, so the
    // pending sense is zeroed.
    0x04_0008_0008_0020_01,
    0xE4_000019_00_00_0007,
    0xD_0019_0007,
    // 2.13 Command 00 with flag 10 and count 0: 13 comes before 10 and 11.
    0x00_0008_0008_0001_00,
    0x00_000000_10_00_0000,
    // 2.14 READ at FFFFFF with count 0: 11 comes before 12.
    0x00_0008_0008_0000_00,
    0x42_FFFFFF_00_00_0000,
    // 2.15 Not ready, and a DEFINE EXTENT of 16 bytes with 15 in main storage: 12 comes before 44,
    // whose sense would be 40 00.
    0x01_0008_0008_000F_00,
    LAST_DEFINE,
    // 2.16 SENSE TYPE, then command 00, then NO-OPERATION: 13 ends the chain. What SENSE TYPE moved
    // stays, and the third answer's bytes are as they were.
    0x00_0018_0018_0007_02,
    0xE4_000000_40_00_0007,
    0x00_000000_40_00_0001,
    LAST_NOOP,
    0xD_0000_0007,
    0xA_0010_0008,
];
