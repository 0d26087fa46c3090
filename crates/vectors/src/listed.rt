// A unit that is not ready (01, cause 44), and commands that are not listed (01, cause 43).
use crate::ccws::LAST_NOOP;

pub const VECTORS: [u64; 17] = [
    // 3.1 Not ready, NO-OPERATION: 44. Sense is 40 00, and byte 7 is 10: format 1, whose section
    // has no table of messages (002, 5.3).
    0x01_0008_0008_0000_00,
    LAST_NOOP,
    // 3.2 The same unit, still not ready: SENSE runs (44 is not for 04), moves what 3.1 left, and
    // then sense is zero.
    0x04_0008_0008_0018_01,
    0x04_000000_00_00_0018,
    0xD_0000_0018,
    // 3.3 Not ready, SENSE TYPE: run (44 is not for E4; 002, 2.4.2).
    0x01_0008_0008_0007_01,
    0xE4_000000_00_00_0007,
    0xD_0000_0007,
    // 3.4 Not ready, READ AND RESET BUFFERED LOG: 44, though it is a sense command too.
    0x01_0008_0008_0018_00,
    0xA4_000000_00_00_0018,
    // 3.5 Not ready, command 64, not listed: 44 comes before 43.
    0x01_0008_0008_0001_00,
    0x64_000000_00_00_0001,
    // 3.6 The record's ready byte is 80: any value but zero is yes (01, What is lent).
    0x40_0008_0008_0000_00,
    LAST_NOOP,
    // 3.7 DEVICE RESERVE B4, not listed in 01: 43, and the chain ends. (002, 2.4.5, lets a unit
    // without sharing reject it.)
    0x00_0010_0010_0001_00,
    0xB4_000000_40_00_0001,
    LAST_NOOP,
];
