// Where each thing stands in an answer (01, What is lent). The unit status comes first; how long an answer is, is `sizes::ANSWER`.
pub const CHANNEL_STATUS: usize = 1;

pub const RESIDUAL: usize = 2;

pub const CAUSE: usize = 4;

pub const BLOCKS: usize = 6;
