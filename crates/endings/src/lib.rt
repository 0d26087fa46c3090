// How a command ends, accepted or refused, with its answer, and how the unit is left: `accept`, `refuse`, and `refuse_parameters` for what
// the parameters say. `numbered` refuses by a cause's number.
#![tactic(auto)]

ghost use Rattle.std.specs.Prelude.{◌≡◌, ◌<◌, Err};
ghost use Rattle.model.specs.Told.{told};
ghost use Rattle.endings.specs.Ending.{answer_words, wrong_told, accepted_end, refusal_of, parameters_refused, refused_end};

pub mod numbered;

use model::cause::{Cause, byte_of};
use model::command::is_no_operation;
use model::decoded::Decoded;
use model::kind::Kind;
use model::sizes;
use model::status::{ChannelStatus, UnitStatus};
use sense_table::Sense;
use unit_state::{Left, Running};

// Its bytes as two numbers: unit status, channel status, residual count (2), which is 0 until the pieces reached are known; cause, zero,
// blocks moved (2).
#[derive(Clone, Copy)]
pub struct Answer {
    pub front: usize,
    pub back: usize,
}

// `moved`: so many bytes, over the pieces of the command. `wrong`: so is the length, which the channel marks in the answer.
#[derive(Clone, Copy)]
pub struct Ended {
    pub left: Left,
    pub answer: Answer,
    pub moved: usize,
    pub wrong: bool,
}

fn answer_of(kind: Kind, outcome: Result<(), Cause>, blocks: usize) -> Answer
    requires { blocks < 65536 }
    ensures { result ≡ answer_words kind (told outcome) blocks }
{
    let unit = UnitStatus::of(kind);
    let channel = ChannelStatus::of(kind);
    let statuses = (unit.0 as usize) * 256 + (channel.0 as usize);
    Answer {
        front: statuses * 65536,
        back: usize::from(byte_of(outcome)) * 16777216 + blocks,
    }
}

// The count is not what the command can move, and flag 20 does not say to pass over that. NO-OPERATION moves nothing.
fn wrong_length(c: Decoded, can: usize) -> bool
    ensures { result ≡ wrong_told c can }
{
    !is_no_operation(c.command) && !c.flags.suppressed() && c.count != can
}

// Of a command that moved so many bytes of those that it could, and so many blocks, and leaves this state.
pub fn accept(c: Decoded, s: Running, moved: usize, can: usize, blocks: usize) -> Ended
    requires { blocks < 65536 }
    ensures { result ≡ accepted_end c s moved can blocks }
{
    let kind = Kind::Accepted;
    Ended {
        left: Left {
            state: s.carried(),
            sense: Sense::none(),
            kind,
        },
        answer: answer_of(kind, Ok(()), blocks),
        moved,
        wrong: wrong_length(c, can),
    }
}

// What a refused command shows.
#[derive(Clone, Copy)]
struct Refusal {
    answer: Answer,
    sense: Sense,
    kind: Kind,
}

// By its cause. Apart from the state, and not inlined: else every command hands its state on by way of memory (docs/SPEED.md).
#[inline(never)]
fn show_refusal(cause: Cause, shown: [u8; sizes::LOCATE]) -> Refusal
    ensures { result ≡ refusal_of (Err cause) shown }
{
    let kind = Kind::of(Err(cause));
    Refusal {
        answer: answer_of(kind, Err(cause), 0),
        sense: Sense::of(cause, shown),
        kind,
    }
}

// For what the parameters say, `read` bytes of which were read before that. `shown` are those that the cause shows: zeros, but for 39.
// The state is the one that the command found.
pub fn refuse_parameters(s: Running, cause: Cause, read: usize, shown: [u8; sizes::LOCATE]) -> Ended
    ensures { result ≡ parameters_refused s (Err cause) read shown }
{
    let r = show_refusal(cause, shown);
    Ended {
        left: Left {
            state: s.carried(),
            sense: r.sense,
            kind: r.kind,
        },
        answer: r.answer,
        moved: read,
        wrong: false,
    }
}

// Before any byte was read.
#[tactic(auto, unfolding(slices::specs::Parts::zeros))]
pub fn refuse(s: Running, cause: Cause) -> Ended
    ensures { result ≡ refused_end s (Err cause) }
{
    refuse_parameters(s, cause, 0, [0u8; sizes::LOCATE])
}
