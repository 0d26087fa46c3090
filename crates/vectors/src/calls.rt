// The call (01, What is lent and Causes 1 to 5). Cause 6 is the host call's alone. Cause 3, and of
// cause 2 the store of more than 131,072 blocks, need 16 and 64 megabytes: more than a program's
// locals can have, so they are for the C host. In 1.1 sense becomes pending; the vectors after it
// keep that record, which no refused call may touch (01: causes 1 to 6 write nothing at all).
use crate::ccws::{LAST_NOOP, NOOP};

pub const VECTORS: [u64; 98] = [
    // 1.1 One CCW, the shortest chain, with answers as long as the chain. Command 64 is not listed:
    // 43, sense 80 00 01.
    0x00_0008_0008_0001_00,
    0x64_000000_00_00_0001,
    // 1.2 Chain length 0: cause 1. No answer byte is written, and sense stays.
    0x04_0000_0008_0000_01,
    0xA_0000_0008,
    // 1.3 Chain length 9, no multiple of 8: cause 1, although the first CCW would end the chain.
    0x04_0009_0010_0000_00,
    LAST_NOOP,
    0,
    // 1.4 256 bytes, 32 CCWs, are the longest chain: all 32 are reached. NO-OPERATION leaves sense
    // as it is.
    0x04_0100_0100_0000_00,
    NOOP,
    NOOP,
    NOOP,
    NOOP,
    NOOP,
    NOOP,
    NOOP,
    NOOP,
    NOOP,
    NOOP,
    NOOP,
    NOOP,
    NOOP,
    NOOP,
    NOOP,
    NOOP,
    NOOP,
    NOOP,
    NOOP,
    NOOP,
    NOOP,
    NOOP,
    NOOP,
    NOOP,
    NOOP,
    NOOP,
    NOOP,
    NOOP,
    NOOP,
    NOOP,
    NOOP,
    LAST_NOOP,
    // 1.5 One CCW more, 264 bytes: cause 1.
    0x04_0108_0108_0000_00,
    NOOP,
    NOOP,
    NOOP,
    NOOP,
    NOOP,
    NOOP,
    NOOP,
    NOOP,
    NOOP,
    NOOP,
    NOOP,
    NOOP,
    NOOP,
    NOOP,
    NOOP,
    NOOP,
    NOOP,
    NOOP,
    NOOP,
    NOOP,
    NOOP,
    NOOP,
    NOOP,
    NOOP,
    NOOP,
    NOOP,
    NOOP,
    NOOP,
    NOOP,
    NOOP,
    NOOP,
    NOOP,
    LAST_NOOP,
    // 1.6 A store of no bytes: cause 2.
    0x24_0008_0008_0000_00,
    LAST_NOOP,
    // 1.7 A store of 513 bytes, no multiple of 512: cause 2.
    0x34_0008_0008_0000_00,
    LAST_NOOP,
    // 1.8 A store of 512 bytes, one block, is the smallest.
    0x14_0008_0008_0000_00,
    LAST_NOOP,
    // 1.9 Answers of 15 bytes for a chain slice of 16: cause 4. The first CCW ends the chain and 8
    // bytes would hold its answer, but the whole slice counts (01, cause 4).
    0x04_0010_000F_0000_01,
    LAST_NOOP,
    LAST_NOOP,
    0xA_0000_0008,
    // 1.10 Answers of 16 bytes: run. The second CCW is not looked at, and its answer bytes stay.
    0x04_0010_0010_0000_01,
    LAST_NOOP,
    LAST_NOOP,
    0xA_0008_0008,
    // 1.11 Both CCWs have flag 40, so no CCW lacks both 80 and 40 and ends the chain: cause 5. The
    // SENSE TYPE in front does not run: main storage stays, and so does sense. (Flag 80: 8.37 on.)
    0x04_0010_0010_0007_01,
    0xE4_000000_40_00_0007,
    NOOP,
    0xD_0000_0007,
    // 1.12 The first CCW lacks both and the second has flag 40: no cause 5, and the chain ends at the
    // first.
    0x04_0010_0010_0000_00,
    LAST_NOOP,
    NOOP,
    // 1.13 Length 0 and no store: 1 comes before 2.
    0x24_0000_0008_0000_00,
    // 1.14 Answers too short, and no end of the chain: 4 comes before 5.
    0x04_0008_0007_0000_00,
    NOOP,
];
