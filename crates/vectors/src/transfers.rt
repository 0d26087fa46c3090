// READ IPL, READ and WRITE (01, causes 40 to 42 and Commands that are accepted; 002, 2.2 and 2.3).
// Block i is filled with byte i and begins at 512 times i; main storage is FF where no parameters
// stand, so what is written is FF. Data areas begin at 0020, and the first block's data ends at
// 021F. 002 overrules 01 on READ IPL after READ IPL (2.2.2.1), on a short WRITE (2.3) and on its
// count in the log (5.8.1).
use crate::ccws::{DEFINE, IPL_BYTE, LAST_NOOP, LAST_READ, LAST_WRITE, LOCATE, LOCATE_2, NOOP};

pub const VECTORS: [u64; 229] = [
    // 6.1 READ IPL first in its chain: block 0, all 512 bytes. One block read and one access
    // movement are counted.
    0x00_0008_0008_0221_03,
    0x02_000020_00_00_0200,
    0xD_0020_0002,
    0xD_021E_0003,
    0xC_0000_0000,
    // 6.2 READ IPL chained from a READ IPL: accepted, counted twice (002, 2.2.2.1). Each moves one
    // byte, with flag 20.
    0x00_0010_0010_0023_02,
    IPL_BYTE,
    0x02_000021_20_00_0001,
    0xD_0020_0003,
    0xC_0000_0000,
    // 6.3 READ IPL, NO-OPERATION, READ IPL: not first, and not directly after a READ IPL: 40,
    // message 2. It counts nothing.
    0x00_0018_0018_0023_02,
    IPL_BYTE,
    NOOP,
    0x02_000021_20_00_0001,
    0xD_0020_0002,
    0xC_0000_0000,
    // 6.4 SENSE, then READ IPL: 40.
    0x00_0010_0010_0023_00,
    0x04_000000_40_00_0018,
    0x02_000020_20_00_0001,
    // 6.5 READ IPL with count 513: 512 can move. Channel status 40, residual 1, and the chain ends.
    0x00_0010_0010_0221_01,
    0x02_000020_40_00_0201,
    LAST_NOOP,
    0xD_021E_0003,
    // 6.6 Extent offset 2, 10 to 13. P5: displacement 12 is block 12 - 10 + 2 = 4.
    0x00_0018_0018_0221_32,
    DEFINE,
    LOCATE,
    LAST_READ,
    0xC0_00_0000_00000002,
    0x0000000A_0000000D,
    0x06_00_0001_0000000C,
    0xD_0020_0002,
    0xD_021E_0003,
    // 6.7 Two blocks from 12: 4 and 5, blocks moved 2.
    0x00_0018_0018_0421_32,
    DEFINE,
    LOCATE,
    0x42_000020_00_00_0400,
    0xC0_00_0000_00000002,
    0x0000000A_0000000D,
    0x06_00_0002_0000000C,
    0xD_021E_0004,
    0xD_041E_0003,
    // 6.8 READ of 513 bytes after a LOCATE for 2: one byte of the second block, blocks moved 2
    // (blocks begun). Flag 20 is on. READ adds its blocks moved to the log.
    0x00_0018_0018_0222_32,
    DEFINE,
    LOCATE,
    0x42_000020_20_00_0201,
    0xC0_00_0000_00000002,
    0x0000000A_0000000D,
    0x06_00_0002_0000000C,
    0xD_021E_0004,
    0xC_0000_0000,
    // 6.9 READ of 511 bytes after a LOCATE for 1, flag 20 off: all 511 move, residual 0, and 512
    // could have: channel status 40. Cause 0: data and counts stand, and the NO-OPERATION is not
    // reached.
    0x00_0020_0020_0220_32,
    DEFINE,
    LOCATE,
    0x42_000020_40_00_01FF,
    LAST_NOOP,
    0xC0_00_0000_00000002,
    0x0000000A_0000000D,
    0x06_00_0001_0000000C,
    0xD_021D_0003,
    0xC_0000_0000,
    // 6.10 READ of 1 byte after a LOCATE for 2, flag 20: one block is begun, so blocks moved is 1.
    0x00_0018_0018_0022_32,
    DEFINE,
    LOCATE,
    0x42_000020_20_00_0001,
    0xC0_00_0000_00000002,
    0x0000000A_0000000D,
    0x06_00_0002_0000000C,
    0xD_0020_0002,
    0xC_0000_0000,
    // 6.11 Read replicated at 1, replication 6, block count 2: the first unit of the range, blocks
    // 1 and 2.
    0x00_0018_0018_0421_33,
    DEFINE,
    LOCATE,
    0x42_000020_00_00_0400,
    0xC0_00_0000_00000000,
    0x00000000_00000007,
    0x02_06_0002_00000001,
    0xD_021E_0004,
    0xD_041E_0003,
    0xC_0000_0000,
    // 6.12 READ with no LOCATE: 41, message 2.
    0x00_0008_0008_0220_00,
    LAST_READ,
    // 6.13 LOCATE, NO-OPERATION, READ: 41, for the READ is not directly after the LOCATE (01, Each
    // side of the lines).
    0x00_0020_0020_0220_31,
    DEFINE,
    LOCATE,
    NOOP,
    LAST_READ,
    0xC0_00_0000_00000000,
    0x00000000_00000007,
    0x06_00_0001_00000003,
    0xD_0020_0002,
    // 6.14 LOCATE, READ, READ: the second gets 41, and counts nothing.
    0x00_0020_0020_0220_31,
    DEFINE,
    LOCATE,
    0x42_000020_40_00_0200,
    LAST_READ,
    0xC0_00_0000_00000000,
    0x00000000_00000007,
    0x06_00_0001_00000003,
    0xC_0000_0000,
    // 6.15 LOCATE of 3, LOCATE of 5, READ: the later LOCATE holds. Two access movements.
    0x00_0020_0020_0220_42,
    DEFINE,
    LOCATE,
    LOCATE_2,
    LAST_READ,
    0xC0_00_0000_00000000,
    0x00000000_00000007,
    0x06_00_0001_00000003,
    0x06_00_0001_00000005,
    0xD_0020_0002,
    0xC_0000_0000,
    // 6.16 Read-only, WRITE with no LOCATE: 41 with 80 00, for no write was located.
    0x02_0008_0008_0220_00,
    LAST_WRITE,
    // 6.17 READ after a write LOCATE: 42, message 2. The LOCATE's movement is counted, and no
    // block.
    0x00_0018_0018_0220_31,
    DEFINE,
    LOCATE,
    LAST_READ,
    0xC0_00_0000_00000000,
    0x00000000_00000007,
    0x01_00_0001_00000003,
    0xC_0000_0000,
    // 6.18 WRITE after a read LOCATE: 42. The block stays.
    0x00_0018_0018_0220_31,
    DEFINE,
    LOCATE,
    LAST_WRITE,
    0xC0_00_0000_00000000,
    0x00000000_00000007,
    0x06_00_0001_00000003,
    0xB_0600_0002,
    // 6.19 WRITE of block 3, mask 00: its neighbours stay. Operation 1 does not count as written
    // with check.
    0x00_0018_0018_0220_33,
    DEFINE,
    LOCATE,
    LAST_WRITE,
    0x00_00_0000_00000000,
    0x00000000_00000007,
    0x01_00_0001_00000003,
    0xB_05FE_0004,
    0xB_07FE_0004,
    0xC_0000_0000,
    // 6.20 P13: WRITE of 513 bytes after a LOCATE for 2, flag 20. Extent offset 2, 10 to 13:
    // displacement 11 is block 3. Block 3 is filled, block 4 has one byte and 511 zeros, blocks
    // moved 2.
    0x00_0018_0018_0221_32,
    DEFINE,
    LOCATE,
    0x41_000020_20_00_0201,
    0xC0_00_0000_00000002,
    0x0000000A_0000000D,
    0x01_00_0002_0000000B,
    0xB_07FE_0004,
    0xB_09FE_0004,
    // 6.21 WRITE of 512 bytes after a LOCATE for 3: blocks 4 and 5 are filled with zeros (002,
    // 2.3), blocks moved is 1, for one block got data. Flag 20 is off: channel status 40 ends the
    // chain, and all three blocks are stored.
    0x00_0020_0020_0220_32,
    DEFINE,
    LOCATE,
    0x41_000020_40_00_0200,
    LAST_NOOP,
    0xC0_00_0000_00000000,
    0x00000000_00000007,
    0x01_00_0003_00000003,
    0xB_07FE_0004,
    0xB_0BFE_0004,
    // 6.22 WRITE of 1 byte after operation 5 for 3 blocks, flag 20: blocks moved is 1, and 3 are
    // written with check (002, 5.8.1).
    0x00_0018_0018_0021_33,
    DEFINE,
    LOCATE,
    0x41_000020_20_00_0001,
    0xC0_00_0000_00000000,
    0x00000000_00000007,
    0x05_00_0003_00000003,
    0xB_0600_0002,
    0xB_0BFE_0004,
    0xC_0000_0000,
    // 6.23 WRITE of 513 bytes after a LOCATE for 1: 512 move, residual 1, channel status 40. Block
    // 4 stays.
    0x00_0018_0018_0221_31,
    DEFINE,
    LOCATE,
    0x41_000020_00_00_0201,
    0xC0_00_0000_00000000,
    0x00000000_00000007,
    0x01_00_0001_00000003,
    0xB_07FE_0004,
    // 6.24 WRITE of 1 byte to block 3, then LOCATE and READ of block 3 in the same chain: FF and
    // 511 zeros come back.
    0x00_0028_0028_0220_42,
    DEFINE,
    LOCATE,
    0x41_000020_60_00_0001,
    LOCATE_2,
    LAST_READ,
    0xC0_00_0000_00000000,
    0x00000000_00000007,
    0x01_00_0001_00000003,
    0x06_00_0001_00000003,
    0xD_0020_0002,
    0xD_021E_0002,
    // 6.25 An earlier READ writes the LOCATE's parameters (01, Errors). At 24 stands a LOCATE of 0;
    // one byte of block 5 goes to 31, its displacement's last byte; so the second LOCATE is of 5,
    // and the last READ gets block 5.
    0x00_0028_0028_0220_42,
    DEFINE,
    LOCATE,
    0x42_00001F_60_00_0001,
    LOCATE_2,
    LAST_READ,
    0xC0_00_0000_00000000,
    0x00000000_00000007,
    0x06_00_0001_00000005,
    0x06_00_0001_00000000,
    0xD_001F_0002,
    0xC_0000_0000,
    // 6.26 The same, with a byte of block 7 put into the operation byte at 24: the second LOCATE is
    // operation 7, 33.
    0x00_0028_0028_0220_42,
    DEFINE,
    LOCATE,
    0x42_000018_60_00_0001,
    LOCATE_2,
    LAST_READ,
    0xC0_00_0000_00000000,
    0x00000000_00000007,
    0x06_00_0001_00000007,
    0x06_00_0001_00000000,
    0xD_0018_0008,
    0xC_0000_0000,
    // 6.27 Read-only, WRITE after a read LOCATE: 42, and not 38, for the located operation does not
    // write. Sense is 80 00 with message 2, and not 80 02: as in 6.16, no write was located. The
    // LOCATE's movement is counted, and no block; the block stays.
    0x02_0018_0018_0220_32,
    DEFINE,
    LOCATE,
    LAST_WRITE,
    0xC0_00_0000_00000000,
    0x00000000_00000007,
    0x06_00_0001_00000003,
    0xB_0600_0002,
    0xC_0000_0000,
    // 6.28 Read-only, READ after the same LOCATE: accepted. Block 3, one block read and one access
    // movement.
    0x02_0018_0018_0220_32,
    DEFINE,
    LOCATE,
    LAST_READ,
    0xC0_00_0000_00000000,
    0x00000000_00000007,
    0x06_00_0001_00000003,
    0xD_0020_0002,
    0xC_0000_0000,
];
