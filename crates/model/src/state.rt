// The command directly before, as far as the next one depends on it.
#[derive(Clone, Copy)]
pub enum Before {
    Nothing,
    ReadIpl,
    Locate,
    Other,
}
