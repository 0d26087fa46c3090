// The bytes of what is lent (01, What is lent), and of what commands take and send.
pub const CCW: usize = 8;

pub const ANSWER: usize = 8;

// The unit record: all but its map, the map, and both.
pub const RECORD: usize = 34;

pub const MAP: usize = 256;

pub const UNIT_RECORD: usize = 290;

// The map's entries, and the bytes of each.
pub const ENTRIES: usize = 64;

pub const ENTRY: usize = 4;

// The parameters of DEFINE EXTENT and of LOCATE.
pub const EXTENT: usize = 16;

pub const LOCATE: usize = 8;

// Sense, and the log.
pub const SENSE: usize = 24;

// Of class A.
pub const BLOCK: usize = 512;

// The most that may be lent: bytes of a chain, bytes of main storage, blocks of a store.
pub const CHAIN_LIMIT: usize = 256;

pub const STORAGE_LIMIT: usize = 16777216;

pub const BLOCKS_LIMIT: usize = 131072;
