// A refusal by the number of its cause, which may be any, as an answer's byte may; 0 is none, and then the command is accepted.
// A command refuses by name (`crate::refuse`).
ghost use Rattle.std.specs.Prelude.{◌≡◌};
ghost use Rattle.slices.specs.Parts.{zeros};
ghost use Rattle.model.specs.Parameters.{locate_length};
ghost use Rattle.sense_table.specs.Sensed.{sense_showing};
ghost use Rattle.endings.specs.Ending.{end_of};

use crate::{Answer, Ended, answer_of, wrong_length};
use model::decoded::Decoded;
use model::kind::Kind;
use model::sizes;
use sense_table::Sense;
use unit_state::{Left, Running};

// For what the parameters say, `read` bytes of which were read before that. `shown` are those that the cause shows.
pub fn refuse_parameters(
    c: Decoded,
    s: Running,
    cause: u8,
    read: usize,
    shown: [u8; sizes::LOCATE],
) -> Ended
    ensures { result ≡ end_of c s read 0 0 cause (sense_showing cause shown) }
{
    let kind = Kind::numbered(cause);
    Ended {
        left: Left {
            state: s.carried(),
            sense: Sense::numbered(cause, shown),
            kind,
        },
        answer: Answer {
            back: usize::from(cause) * 16777216,
            ..answer_of(kind, Ok(()), 0)
        },
        moved: read,
        wrong: kind == Kind::Accepted && wrong_length(c, 0),
    }
}

// Before any byte was read.
#[tactic(auto, unfolding(slices::specs::Parts::zeros))]
pub fn refuse(c: Decoded, s: Running, cause: u8) -> Ended
    ensures { result ≡ end_of c s 0 0 0 cause (sense_showing cause (zeros locate_length)) }
{
    refuse_parameters(c, s, cause, 0, [0u8; sizes::LOCATE])
}
