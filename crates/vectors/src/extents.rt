// DEFINE EXTENT (01, causes 20 to 26; 002, 2.1.3). The 16 bytes stand at 0: mask, zero, block size,
// offset; then first and last displacement. The device has blocks 0 to 7. Parameters are
// transferred and then checked (02, ask 1): after 22 to 26 the residual is the count less 16, after
// 20 and 21 the whole count.
use crate::ccws::{DEFINE, IPL_BYTE, LAST_DEFINE, LAST_NOOP};

pub const VECTORS: [u64; 149] = [
    // 4.1 P1: offset 2, displacements 0 to 5: blocks 2 to 7, accepted.
    0x00_0008_0008_0010_20,
    LAST_DEFINE,
    0xC0_00_0000_00000002,
    0x00000000_00000005,
    // 4.2 The same with count 15: 20, sense 80 00 and message 3.
    0x00_0008_0008_0010_20,
    0x63_000000_00_00_000F,
    0xC0_00_0000_00000002,
    0x00000000_00000005,
    // 4.3 Count 17: 16 bytes move and one is left. Flag 20 is off, so channel status 40, which ends
    // the chain with cause 0.
    0x00_0010_0010_0011_21,
    0x63_000000_40_00_0011,
    LAST_NOOP,
    0xC0_00_0000_00000002,
    0x00000000_00000005,
    0xA_0008_0008,
    // 4.4 Count 17 with flag 20: the residual is the same, channel status 00, and the chain goes
    // on.
    0x00_0010_0010_0011_20,
    0x63_000000_60_00_0011,
    LAST_NOOP,
    0xC0_00_0000_00000002,
    0x00000000_00000005,
    // 4.5 A second DEFINE EXTENT in the chain: 21, message 2.
    0x00_0010_0010_0010_20,
    DEFINE,
    LAST_DEFINE,
    0xC0_00_0000_00000002,
    0x00000000_00000005,
    // 4.6 READ IPL, then DEFINE EXTENT: 21, for READ IPL set an extent (01, Each side of the
    // lines).
    0x00_0010_0010_0021_20,
    IPL_BYTE,
    LAST_DEFINE,
    0xC0_00_0000_00000002,
    0x00000000_00000005,
    // 4.7 A second DEFINE EXTENT with count 15: 20 comes before 21.
    0x00_0010_0010_0010_20,
    DEFINE,
    0x63_000000_00_00_000F,
    0xC0_00_0000_00000002,
    0x00000000_00000005,
    // 4.8 Mask 80, bits 0-1 are 10: 22, message 4.
    0x00_0008_0008_0010_20,
    LAST_DEFINE,
    0x80_00_0000_00000002,
    0x00000000_00000005,
    // 4.9 Mask 40, bits 0-1 are 01: accepted.
    0x00_0008_0008_0010_20,
    LAST_DEFINE,
    0x40_00_0000_00000002,
    0x00000000_00000005,
    // 4.10 Mask 04, bits 0-1 are 00 and bit 5 is one: accepted without effect.
    0x00_0008_0008_0010_20,
    LAST_DEFINE,
    0x04_00_0000_00000002,
    0x00000000_00000005,
    // 4.11 Mask 20, bit 2: 22.
    0x00_0008_0008_0010_20,
    LAST_DEFINE,
    0x20_00_0000_00000002,
    0x00000000_00000005,
    // 4.12 Mask 10, bit 3: 22.
    0x00_0008_0008_0010_20,
    LAST_DEFINE,
    0x10_00_0000_00000002,
    0x00000000_00000005,
    // 4.13 Mask 02, bit 6: 22.
    0x00_0008_0008_0010_20,
    LAST_DEFINE,
    0x02_00_0000_00000002,
    0x00000000_00000005,
    // 4.14 Mask 01, bit 7: 22.
    0x00_0008_0008_0010_20,
    LAST_DEFINE,
    0x01_00_0000_00000002,
    0x00000000_00000005,
    // 4.15 Byte 1 is 01: 22.
    0x00_0008_0008_0010_20,
    LAST_DEFINE,
    0xC0_01_0000_00000002,
    0x00000000_00000005,
    // 4.16 Mask 08, bit 4, the maintenance area: 23, message 4.
    0x00_0008_0008_0010_20,
    LAST_DEFINE,
    0x08_00_0000_00000002,
    0x00000000_00000005,
    // 4.17 Mask 88: 22 comes before 23.
    0x00_0008_0008_0010_20,
    LAST_DEFINE,
    0x88_00_0000_00000002,
    0x00000000_00000005,
    // 4.18 Block size 512: accepted, as 0 is.
    0x00_0008_0008_0010_20,
    LAST_DEFINE,
    0xC0_00_0200_00000002,
    0x00000000_00000005,
    // 4.19 Block size 511: 24. Sense byte 1 is 40, Block Size Exception.
    0x00_0008_0008_0010_20,
    LAST_DEFINE,
    0xC0_00_01FF_00000002,
    0x00000000_00000005,
    // 4.20 Block size bytes 00 02, 512 in the wrong byte order: 24.
    0x00_0008_0008_0010_20,
    LAST_DEFINE,
    0xC0_00_0002_00000002,
    0x00000000_00000005,
    // 4.21 P3: 5 to 4: 25.
    0x00_0008_0008_0010_20,
    LAST_DEFINE,
    0xC0_00_0000_00000002,
    0x00000005_00000004,
    // 4.22 5 to 5 at offset 7: one block, the device's last. Neither 25 nor 26.
    0x00_0008_0008_0010_20,
    LAST_DEFINE,
    0xC0_00_0000_00000007,
    0x00000005_00000005,
    // 4.23 P2: offset 2, 0 to 6: the last block would be 8: 26.
    0x00_0008_0008_0010_20,
    LAST_DEFINE,
    0xC0_00_0000_00000002,
    0x00000000_00000006,
    // 4.24 P4: offset 4,294,967,295, 0 to 1: 26. Wrapped at 32 bits the sum would be 0, and pass
    // (01, Errors).
    0x00_0008_0008_0010_20,
    LAST_DEFINE,
    0xC0_00_0000_FFFFFFFF,
    0x00000000_00000001,
    // 4.25 Offset 6, FFFFFFFE to FFFFFFFF: blocks 6 and 7, accepted. Only last minus first counts.
    0x00_0008_0008_0010_20,
    LAST_DEFINE,
    0xC0_00_0000_00000006,
    0xFFFFFFFE_FFFFFFFF,
    // 4.26 5 to 4 at offset 9: last minus first is no number. 25 comes before 26.
    0x00_0008_0008_0010_20,
    LAST_DEFINE,
    0xC0_00_0000_00000009,
    0x00000005_00000004,
    // 4.27 A device of one block, offset 0, 0 to 1: 26.
    0x10_0008_0008_0010_20,
    LAST_DEFINE,
    0xC0_00_0000_00000000,
    0x00000000_00000001,
    // 4.28 P2 with count 32: 26. 16 bytes were transferred, so 16 are left. Channel status is 00
    // though flag 20 is off, the chain ends, and nothing is stored.
    0x00_0010_0010_0020_22,
    0x63_000000_40_00_0020,
    LAST_NOOP,
    0xC0_00_0000_00000002,
    0x00000000_00000006,
    0xA_0008_0008,
    0xD_0000_0020,
    // 4.29 The same with flag 20: the same answer.
    0x00_0008_0008_0020_20,
    0x63_000000_20_00_0020,
    0xC0_00_0000_00000002,
    0x00000000_00000006,
    // 4.30 Count 17, mask 80: 22, and one byte is left.
    0x00_0008_0008_0011_21,
    0x63_000000_00_00_0011,
    0x80_00_0000_00000002,
    0x00000000_00000005,
    0xD_0000_0011,
    // 4.31 Count 1,088, 5 to 4: 25, and 1,072 bytes, 0430, are left.
    0x00_0008_0008_0440_20,
    0x63_000000_00_00_0440,
    0xC0_00_0000_00000002,
    0x00000005_00000004,
    // 4.32 A second DEFINE EXTENT with count 32: 21. Its bytes, all FF, are not transferred, or it
    // would be 22: the residual is the whole count.
    0x00_0010_0010_0030_21,
    DEFINE,
    0x63_000010_00_00_0020,
    0xC0_00_0000_00000002,
    0x00000000_00000005,
    0xD_0000_0030,
    // 4.33 Count 15 and mask 80: 20 comes before 22, and the residual is the whole count.
    0x00_0008_0008_0010_21,
    0x63_000000_20_00_000F,
    0x80_00_0000_00000002,
    0x00000000_00000005,
    0xD_0000_0010,
    // 4.34 Not ready, count 32 and mask 80: 44 comes before 22, and the residual is the whole
    // count.
    0x01_0008_0008_0020_20,
    0x63_000000_00_00_0020,
    0x80_00_0000_00000002,
    0x00000000_00000005,
];
