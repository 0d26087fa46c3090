// LOCATE's operations (01, LOCATE; 002, 2.1.4): their codes, and which of them a READ may follow (`reads`), and a WRITE (`writes`).
// Numbers, and no enum: the definition's `Located` holds any four bits of the byte, and cause 33 refuses those that are none of these.
ghost use Rattle.std.specs.Prelude.{◌≡◌};
ghost use Rattle.model.specs.Parameters.{reads, writes};

pub const FORMAT: u32 = 4;

pub const WRITE_DATA: u32 = 1;

pub const WRITE_CHECK: u32 = 5;

pub const READ_DATA: u32 = 6;

pub const READ_REPLICATED: u32 = 2;

#[tactic(auto, unfolding(numbers::specs::Choice::one_of))]
pub fn reads(code: u32) -> bool
    ensures { result ≡ reads code }
{
    matches!(code, READ_DATA | READ_REPLICATED)
}

#[tactic(auto, unfolding(numbers::specs::Choice::one_of))]
pub fn writes(code: u32) -> bool
    ensures { result ≡ writes code }
{
    matches!(code, WRITE_DATA | WRITE_CHECK)
}
