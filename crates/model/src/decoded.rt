// A command as the code carries it, beside the chain that it stands in (specs/Decoded.antt says which command that is).
use crate::ccw::{Flags, Piece};

// A data area: its first piece, and the CCWs of the pieces behind it, from `next` up to `end`. What is behind a piece is an area again.
#[derive(Clone, Copy)]
pub struct Area {
    pub piece: Piece,
    pub next: usize,
    pub end: usize,
}

// The command's own byte, the flags of its last piece, the sum of its counts, and its data area.
#[derive(Clone, Copy)]
pub struct Decoded {
    pub area: Area,
    pub count: usize,
    pub command: u8,
    pub flags: Flags,
}
