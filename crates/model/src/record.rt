// The unit record: what the unit keeps from one chain to the next. Its map, which is most of its bytes, is apart: while a chain runs
// it stays where it is lent.
use crate::sizes;

#[derive(Clone, Copy)]
pub struct Record {
    pub sense: [u8; sizes::SENSE],
    pub blocks_read: [u8; 3],
    pub blocks_written: [u8; 3],
    pub movements: [u8; 2],
    pub ready: u8,
    pub read_only: u8,
}

// The unit record as callers hold it: all but the map, and the map of its alternates.
#[derive(Clone, Copy)]
pub struct UnitRecord {
    pub unit: Record,
    pub map: [u8; sizes::MAP],
}

// The counts of a record.
#[derive(Clone, Copy)]
pub struct Counts {
    pub blocks_read: [u8; 3],
    pub blocks_written: [u8; 3],
    pub movements: [u8; 2],
}
