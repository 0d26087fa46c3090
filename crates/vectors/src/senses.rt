// SENSE, SENSE TYPE, and READ AND RESET BUFFERED LOG (01, Commands that are accepted; 002, 2.4 and
// 5.8). 002 overrules 01 on byte 2 of the log (5.1: Environmental Data Present).
use crate::ccws::{DEFINE, LAST_DEFINE, LAST_NOOP, LOCATE, LOCATE_2, NOOP};

pub const VECTORS: [u64; 50] = [
    // 7.1 A refusal leaves sense pending: mask 80, 22.
    0x00_0008_0008_0010_20,
    LAST_DEFINE,
    0x80_00_0000_00000002,
    0x00000000_00000005,
    // 7.2 The same unit: NO-OPERATION leaves sense as it is, and SENSE of one byte, with flag 20,
    // moves 80. Then all sense is zero, moved or not.
    0x04_0010_0010_0012_02,
    NOOP,
    0x04_000010_20_00_0001,
    0xD_0010_0002,
    0xE_0000_0000,
    // 7.3 SENSE with count 25: 24 bytes move, residual 1, channel status 40, and the chain ends.
    0x00_0010_0010_0019_01,
    0x04_000000_40_00_0019,
    LAST_NOOP,
    0xD_0000_0019,
    // 7.4 SENSE TYPE with count 6, flag 20 off: 6 bytes, residual 0, and 7 could have moved:
    // channel status 40.
    0x00_0008_0008_0007_01,
    0xE4_000000_00_00_0006,
    0xD_0000_0007,
    // 7.5 Something for the log: 3 blocks written with check by a WRITE of 1 byte, 1 block read, 2
    // LOCATEs. Command 64 at the end gets 43, so sense is pending; it counts nothing.
    0x00_0030_0030_0220_41,
    DEFINE,
    LOCATE,
    0x41_000020_60_00_0001,
    LOCATE_2,
    0x42_000020_40_00_0200,
    0x64_000000_00_00_0001,
    0xC0_00_0000_00000000,
    0x00000000_00000007,
    0x05_00_0003_00000003,
    0x06_00_0001_00000000,
    0xC_0000_0000,
    // 7.6 The same unit: the log. Bytes 0 to 7 are 00 00 10 00 00 00 00 68, and not the sense that
    // was pending; 8 to 10 blocks read, 15 to 17 written with check, 19 to 20 movements. Then the
    // counts and sense are zero.
    0x04_0008_0008_0018_02,
    0xA4_000000_00_00_0018,
    0xD_0000_0018,
    0xC_0000_0000,
    // 7.7 A unit whose counts are FFFFFE, FFFFFE and FFFE: 8 bytes of the log, with flag 20. The
    // counts are zeroed all the same.
    0x08_0008_0008_0009_02,
    0xA4_000000_20_00_0008,
    0xD_0000_0009,
    0xC_0000_0000,
    // 7.8 Such a unit, READ IPL: blocks read and movements come to FFFFFF and FFFF, their largest.
    0x08_0008_0008_0021_01,
    0x02_000020_20_00_0001,
    0xC_0000_0000,
    // 7.9 Such a unit: 3 blocks written with check, 2 read, 2 movements. Each sum is too large for
    // its field and becomes its largest value.
    0x08_0028_0028_0221_41,
    DEFINE,
    LOCATE,
    0x41_000020_60_00_0001,
    LOCATE_2,
    0x42_000020_20_00_0201,
    0xC0_00_0000_00000000,
    0x00000000_00000007,
    0x05_00_0003_00000003,
    0x06_00_0002_00000000,
    0xC_0000_0000,
];
