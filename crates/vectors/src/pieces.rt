// Data chaining (02, ask 2). A command is its first CCW and, while a CCW has flag 80, the next one:
// its pieces. Each piece reached has an answer; those before the last one show zeros. The 16 bytes
// of a DEFINE EXTENT stand at 0 and the 8 of a LOCATE at 16 where nothing else is said. Block i is
// filled with byte i and begins at 512 times i.
use crate::ccws::{DEFINE, LAST_NOOP, LAST_READ, LOCATE};

pub const VECTORS: [u64; 331] = [
    // 8.1 DEFINE EXTENT gathered from 10 bytes at 16 and 6 bytes at 0: C0 00 0000 00000002 00000000
    // 00000005, which is P1: accepted. Either count is under 16, and their sum is not.
    0x00_0010_0010_0020_40,
    0x63_000010_80_00_000A,
    0x63_000000_00_00_0006,
    0x0000_00000005_FFFF,
    0xFFFFFFFF_FFFFFFFF,
    0xC0_00_0000_00000002,
    0x0000_FFFFFFFF_FFFF,
    // 8.2 LOCATE gathered from 3 bytes at 16 and 5 bytes at 24: a read of block 3. The READ is
    // directly after it, and its answer follows those of the LOCATE's two pieces.
    0x00_0020_0020_0220_42,
    DEFINE,
    0x43_000010_80_00_0003,
    0x43_000018_40_00_0005,
    LAST_READ,
    0xC0_00_0000_00000000,
    0x00000000_00000007,
    0x06_00_00_FFFFFFFFFF,
    0x01_00000003_FFFFFF,
    0xD_0020_0002,
    0xC_0000_0000,
    // 8.3 READ of blocks 3 and 4, scattered: 768 bytes to 0120, 256 to 0020, and 16 more to 0420
    // that do not come. The third piece is not reached, and the second one's answer is the last: no
    // residual, blocks moved 2. 1,040 is not 1,024, but flag 20 of the third piece suppresses that,
    // and its flag 40 chains the NO-OPERATION, whose answer is the fifth. The sixth's bytes stay.
    0x00_0030_0030_0430_36,
    DEFINE,
    LOCATE,
    0x42_000120_80_00_0300,
    0x42_000020_80_00_0100,
    0x42_000420_60_00_0010,
    LAST_NOOP,
    0xC0_00_0000_00000000,
    0x00000000_00000007,
    0x06_00_0002_00000003,
    0xD_001E_0004,
    0xD_011E_0004,
    0xD_031E_0004,
    0xD_041E_0004,
    0xC_0000_0000,
    0xA_0028_0008,
    // 8.4 The same, with flag 20 on the first two pieces, where it means nothing, and not on the
    // third: channel status 40 in the second piece's answer, and the chain ends.
    0x00_0030_0030_0430_33,
    DEFINE,
    LOCATE,
    0x42_000120_A0_00_0300,
    0x42_000020_A0_00_0100,
    0x42_000420_40_00_0010,
    LAST_NOOP,
    0xC0_00_0000_00000000,
    0x00000000_00000007,
    0x06_00_0002_00000003,
    0xD_031E_0004,
    0xD_041E_0004,
    0xA_0020_0008,
    // 8.5 SENSE TYPE in two pieces, 3 bytes to 0 and 4 to 16. The first has flags 80 and 40: 40
    // means nothing there. The second has neither, and so ends the chain; its command byte, 03, is
    // ignored.
    0x00_0018_0018_0020_03,
    0xE4_000000_C0_00_0003,
    0x03_000010_00_00_0004,
    LAST_NOOP,
    0xD_0000_0004,
    0xD_0010_0005,
    0xA_0010_0008,
    // 8.6 SENSE TYPE in five pieces whose later command bytes are 00, 08, FF and 43: all ignored.
    // FF goes to 6, 00 to 5, 97 to 4, 01 to 3, and 05 12 01 to 0.
    0x00_0028_0028_0008_01,
    0xE4_000006_80_00_0001,
    0x00_000005_80_00_0001,
    0x08_000004_80_00_0001,
    0xFF_000003_80_00_0001,
    0x43_000000_00_00_0003,
    0xD_0000_0008,
    // 8.7 Command 64 in two pieces: 43. It has read nothing, so the first piece alone is reached,
    // and its own count is left. Sense is pending, and up to 8.16 no command zeroes it.
    0x00_0010_0010_0020_01,
    0x64_000000_80_00_0001,
    0x64_000001_00_00_0005,
    0xA_0008_0008,
    // 8.8 Flag 10 in the second piece: 10, answered in the first piece alone, whose own count is
    // the residual. Nothing is moved.
    0x04_0010_0010_0020_02,
    0xE4_000000_80_00_0003,
    0xE4_000003_10_00_0004,
    0xD_0000_0003,
    0xA_0008_0008,
    // 8.9 Flags 80 and 10 in the second of three pieces: 10. Flag 80 does not excuse flag 10.
    0x04_0018_0018_0020_00,
    0xE4_000000_80_00_0003,
    0xE4_000003_90_00_0002,
    0xE4_000005_00_00_0002,
    // 8.10 Count 0 in the second of three pieces: 11.
    0x04_0018_0018_0020_01,
    0xE4_000000_80_00_0003,
    0xE4_000003_80_00_0000,
    0xE4_000003_00_00_0004,
    0xD_0000_0003,
    // 8.11 The second piece is bytes 29 to 32 of a main storage whose last is 31: 12. Its command
    // byte 03 does not help: 12 is not tested for a NO-OPERATION, and the command is SENSE TYPE.
    0x04_0010_0010_0020_01,
    0xE4_000000_80_00_0003,
    0x03_00001D_00_00_0004,
    0xD_0000_0003,
    // 8.12 The third piece leaves main storage. The first two could take all seven bytes: 12 all
    // the same, and flag 20 does not help.
    0x04_0018_0018_0020_01,
    0xE4_000000_80_00_0003,
    0xE4_000003_80_00_0004,
    0xE4_000020_20_00_0001,
    0xD_0000_0003,
    // 8.13 The first piece leaves main storage, and the second has flag 10: piece 1's 12 comes
    // before piece 2's 10.
    0x04_0010_0010_0020_00,
    0xE4_00001E_80_00_0003,
    0xE4_000000_10_00_0004,
    // 8.14 Command 00, and flag 10 in the first and in the second piece: 13 comes before them.
    0x04_0010_0010_0020_00,
    0x00_000000_90_00_0002,
    0xE4_000000_10_00_0004,
    // 8.15 NO-OPERATION in two pieces, of 65,535 bytes and 1 at FFFFFF, with no main storage: 12 is
    // not tested for it in any piece. It moves nothing, so the first piece alone is reached, with
    // its own count as residual. The sum, 65,536, is not 0. Flag 40 of the final piece chains, and
    // the next answer is the next command's.
    0x04_0018_0018_0000_01,
    0x03_FFFFFF_80_00_FFFF,
    0xE4_FFFFFF_40_00_0001,
    LAST_NOOP,
    0xA_0010_0008,
    // 8.16 SENSE of 8.7's refusal: byte 0 goes to 23, the other 23 to 0, and a third piece of 5
    // bytes with flag 20 is not reached. Then all sense is zero.
    0x04_0018_0018_0020_02,
    0x04_000017_80_00_0001,
    0x04_000000_80_00_0017,
    0x04_000018_20_00_0005,
    0xD_0000_001D,
    0xE_0000_0000,
    // 8.17 A unit whose counts are FFFFFE, FFFFFE and FFFE: the log in pieces of 8 and 3 bytes,
    // with flag 20. Bytes 8 to 10, blocks read, go to 0. The counts are zeroed all the same.
    0x08_0010_0010_0010_03,
    0xA4_000008_80_00_0008,
    0xA4_000000_20_00_0003,
    0xD_0000_0003,
    0xD_0008_0008,
    0xC_0000_0000,
    // 8.18 READ IPL in pieces of 1 and 511 bytes, then READ IPL: chained from a READ IPL, whatever
    // the command byte of its last piece.
    0x00_0018_0018_0221_03,
    0x02_000020_80_00_0001,
    0x03_000021_40_00_01FF,
    0x02_000020_00_00_0200,
    0xD_0020_0002,
    0xD_021E_0003,
    0xC_0000_0000,
    // 8.19 P7, the LOCATE gathered from 3 bytes at 16 and 9 at 24, of which 5 are read; a third
    // piece of 4 bytes is not reached. 36 in the second piece's answer, 4 bytes left; channel
    // status 00 though flag 20 is off. No movement is counted, and the chain ends.
    0x00_0028_0028_0025_42,
    DEFINE,
    0x43_000010_80_00_0003,
    0x43_000018_80_00_0009,
    0x43_000021_40_00_0004,
    LAST_NOOP,
    0xC0_00_0000_00000002,
    0x0000000A_0000000D,
    0x06_00_00_FFFFFFFFFF,
    0x03_0000000C_FFFFFF,
    0xA_0018_0008,
    0xC_0000_0000,
    // 8.20 P7 with all eight bytes in the first piece, of 10, and a second of 6: the first piece
    // alone is reached, and 2 bytes of it are left.
    0x00_0018_0018_0020_31,
    DEFINE,
    0x43_000010_80_00_000A,
    0x43_00001A_00_00_0006,
    0xC0_00_0000_00000002,
    0x0000000A_0000000D,
    0x06_00_0003_0000000C,
    0xA_0010_0008,
    // 8.21 P7 with a first piece of just eight bytes: no byte moves in the second, which is not
    // reached.
    0x00_0018_0018_0020_31,
    DEFINE,
    0x43_000010_80_00_0008,
    0x43_000018_00_00_0001,
    0xC0_00_0000_00000002,
    0x0000000A_0000000D,
    0x06_00_0003_0000000C,
    0xA_0010_0008,
    // 8.22 Mask 80 from 16, the other 15 bytes from 0: 22.
    0x00_0010_0010_0018_30,
    0x63_000010_80_00_0001,
    0x63_000000_00_00_000F,
    0x00_0000_00000002_00,
    0x000000_00000005_FF,
    0x80_FFFFFFFFFFFFFF,
    // 8.23 Mask 08. Eight bytes from 8, then 16 from 0, of which eight are read: 23, and 8 are
    // left.
    0x00_0010_0010_0010_20,
    0x63_000008_80_00_0008,
    0x63_000000_00_00_0010,
    0x00000000_00000005,
    0x08_00_0000_00000002,
    // 8.24 Block size 01FF, its first byte the third from 16, its second at 0: 24.
    0x00_0010_0010_0018_30,
    0x63_000010_80_00_0003,
    0x63_000000_00_00_000D,
    0xFF_00000002_000000,
    0x00_00000005_FFFFFF,
    0xC0_00_01_FFFFFFFFFF,
    // 8.25 5 to 4, in sixteen pieces of one byte, the last byte of main storage first: 25 in the
    // sixteenth answer.
    0x00_0080_0080_0010_20,
    0x63_00000F_80_00_0001,
    0x63_00000E_80_00_0001,
    0x63_00000D_80_00_0001,
    0x63_00000C_80_00_0001,
    0x63_00000B_80_00_0001,
    0x63_00000A_80_00_0001,
    0x63_000009_80_00_0001,
    0x63_000008_80_00_0001,
    0x63_000007_80_00_0001,
    0x63_000006_80_00_0001,
    0x63_000005_80_00_0001,
    0x63_000004_80_00_0001,
    0x63_000003_80_00_0001,
    0x63_000002_80_00_0001,
    0x63_000001_80_00_0001,
    0x63_000000_00_00_0001,
    0x04000000_05000000,
    0x02000000_000000C0,
    // 8.26 P2: twelve bytes from 0 and the last displacement from 16, where the count is 20: 26,
    // and 16 are left. The third piece is not reached.
    0x00_0018_0018_0024_31,
    0x63_000000_80_00_000C,
    0x63_000010_80_00_0014,
    0x63_000000_20_00_0001,
    0xC0_00_0000_00000002,
    0x00000000_FFFFFFFF,
    0x00000006_FFFFFFFF,
    0xA_0010_0008,
    // 8.27 DEFINE EXTENT of 8 and 7 bytes: the sum is 15, 20. It has read nothing: the first piece
    // alone is reached, and its own count is left.
    0x00_0010_0010_0010_21,
    0x63_000000_80_00_0008,
    0x63_000008_00_00_0007,
    0xC0_00_0000_00000002,
    0x00000000_00000005,
    0xA_0008_0008,
    // 8.28 LOCATE of 4 and 3 bytes: the sum is 7, 31, likewise.
    0x00_0018_0018_0018_31,
    DEFINE,
    0x43_000010_80_00_0004,
    0x43_000014_00_00_0003,
    0xC0_00_0000_00000000,
    0x00000000_00000007,
    0x06_00_0001_00000003,
    0xA_0010_0008,
    // 8.29 Format of one block, the LOCATE gathered from 2 bytes at 24 and 6 at 16: 39. Sense bytes
    // 8 to 15 are the eight as gathered.
    0x00_0018_0018_0020_41,
    DEFINE,
    0x43_000018_80_00_0002,
    0x43_000010_00_00_0006,
    0xC0_00_0000_00000000,
    0x00000000_00000007,
    0x0001_00000003_FFFF,
    0x04_55_FFFFFFFFFFFF,
    0xE_0000_0000,
    // 8.30 READ of blocks 3 and 4 to pieces that overlap: block 3 to 0120, then block 4 to 0020.
    // Bytes 0120 to 021F belong to both, and the later bytes stay.
    0x00_0020_0020_0321_33,
    DEFINE,
    LOCATE,
    0x42_000120_80_00_0200,
    0x42_000020_00_00_0200,
    0xC0_00_0000_00000000,
    0x00000000_00000007,
    0x06_00_0002_00000003,
    0xD_001E_0004,
    0xD_021E_0004,
    0xD_031E_0003,
    // 8.31 WRITE after operation 5 for 2 blocks, gathered from 2 bytes at 30 and 3 at 24, with flag
    // 20: 77 88 11 22 33, then zeros to the end of block 4. Blocks moved is 1, and 2 are written
    // with check.
    0x00_0020_0020_0020_44,
    DEFINE,
    LOCATE,
    0x41_00001E_80_00_0002,
    0x41_000018_20_00_0003,
    0xC0_00_0000_00000000,
    0x00000000_00000007,
    0x05_00_0002_00000003,
    0x1122334455667788,
    0xB_0600_0007,
    0xB_07FE_0004,
    0xB_09FE_0004,
    0xC_0000_0000,
    // 8.32 WRITE of 511 bytes from 32 and 2 from 24 after a LOCATE for 2, flag 20: the second piece
    // fills block 3 and begins block 4, whose rest is zeros. Blocks moved 2.
    0x00_0020_0020_021F_42,
    DEFINE,
    LOCATE,
    0x41_000020_80_00_01FF,
    0x41_000018_20_00_0002,
    0xC0_00_0000_00000000,
    0x00000000_00000007,
    0x01_00_0002_00000003,
    0x1122334455667788,
    0xB_07FD_0005,
    0xB_09FE_0004,
    // 8.33 WRITE of 512 bytes and 16 more after a LOCATE for 1: the second piece is not reached.
    // 528 is not 512 and flag 20 is off: channel status 40 in the first piece's answer, which has
    // no residual. Block 4 stays.
    0x00_0020_0020_0230_32,
    DEFINE,
    LOCATE,
    0x41_000020_80_00_0200,
    0x41_000220_00_00_0010,
    0xC0_00_0000_00000000,
    0x00000000_00000007,
    0x01_00_0001_00000003,
    0xB_07FE_0004,
    0xA_0018_0008,
    // 8.34 READ in two pieces, the second's command byte 43, then READ: 41. What is directly before
    // it is a READ, and no LOCATE.
    0x00_0028_0028_0023_32,
    DEFINE,
    LOCATE,
    0x42_000020_80_00_0001,
    0x43_000021_60_00_0001,
    0x42_000022_20_00_0001,
    0xC0_00_0000_00000000,
    0x00000000_00000007,
    0x06_00_0001_00000003,
    0xD_0020_0003,
    0xC_0000_0000,
    // 8.35 WRITE in two pieces after a read LOCATE: 42, in the first piece alone. The block stays.
    0x00_0020_0020_0220_32,
    DEFINE,
    LOCATE,
    0x41_000020_80_00_0100,
    0x41_000120_00_00_0100,
    0xC0_00_0000_00000000,
    0x00000000_00000007,
    0x06_00_0001_00000003,
    0xB_0600_0002,
    0xA_0018_0008,
    // 8.36 Not ready, DEFINE EXTENT in two pieces: 44, in the first piece alone.
    0x01_0010_0010_0010_21,
    0x63_000000_80_00_000A,
    0x63_00000A_00_00_0006,
    0xC0_00_0000_00000002,
    0x00000000_00000005,
    0xA_0008_0008,
    // 8.37 One CCW, with flag 80: no CCW lacks both 80 and 40, cause 5. The record stays.
    0x04_0008_0008_0007_01,
    0xE4_000000_80_00_0007,
    0xA_0000_0008,
    // 8.38 Flag 40, then flag 80: cause 5. The SENSE TYPE in front does not run.
    0x00_0010_0010_0007_01,
    0xE4_000000_40_00_0007,
    0x03_000000_80_00_0001,
    0xD_0000_0007,
    // 8.39 Flag 80, then flags 80 and 40: cause 5.
    0x00_0010_0010_0007_01,
    0xE4_000000_80_00_0003,
    0xE4_000003_C0_00_0004,
    0xD_0000_0007,
    // 8.40 The first CCW lacks both and the second has flag 80: no cause 5, and the chain ends at
    // the first.
    0x00_0010_0010_0007_01,
    0xE4_000000_00_00_0007,
    0xE4_000000_80_00_0007,
    0xD_0000_0007,
    // 8.41 The program that the Linux driver dasd_fba builds to read two blocks from a device that
    // may chain data: DEFINE EXTENT (mask 40, block size 512, offset 3, displacements 0 to 1),
    // LOCATE (operation 6, two blocks), then a READ of 512 for each block, with flag 80 on all but
    // the last. Each piece is reached, and blocks moved 2 stands in the last answer.
    0x00_0020_0020_0421_34,
    DEFINE,
    LOCATE,
    0x42_000220_80_00_0200,
    0x42_000020_00_00_0200,
    0x40_00_0200_00000003,
    0x00000000_00000001,
    0x06_00_0002_00000000,
    0xD_001E_0004,
    0xD_021E_0004,
    0xD_041E_0003,
    0xC_0000_0000,
    // 8.42 The program that it builds to write two blocks: mask 00, operation 5, two WRITEs of 512.
    // The first comes from 0220, all FF; the second from 0020, where 11 stands eight times.
    0x00_0020_0020_0420_55,
    DEFINE,
    LOCATE,
    0x41_000220_80_00_0200,
    0x41_000020_00_00_0200,
    0x00_00_0200_00000003,
    0x00000000_00000001,
    0x05_00_0002_00000000,
    0xFFFFFFFF_FFFFFFFF,
    0x11111111_11111111,
    0xB_05FE_0004,
    0xB_07FE_0004,
    0xB_0806_0004,
    0xB_09FE_0004,
    0xC_0000_0000,
    // 8.43 SENSE TYPE in pieces of 3 and 10 bytes, flag 20 off: four bytes move in the second, and
    // 6 of it are left. 13 is not 7: channel status 40.
    0x00_0010_0010_000D_01,
    0xE4_000000_80_00_0003,
    0xE4_000003_00_00_000A,
    0xD_0000_0008,
];
