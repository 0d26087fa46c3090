// The answers of a command, one for each piece reached, behind those that were given before: the way in is `put_answers`. Nothing here
// is refused: a caller proves that there is room for an answer to each CCW of the command.
#![tactic(auto)]

ghost use Rattle.std.specs.Prelude.{◌≡◌, ◌+◌, ◌-◌, ◌*◌, ◌≤◌, ◌<◌, length, set};
ghost use Rattle.numbers.specs.Choice.{pick};
ghost use Rattle.slices.specs.Parts.{zeros, put};
ghost use Rattle.model.specs.Names.{INCORRECT_LENGTH};
ghost use Rattle.model.specs.Pieces.{counts};
ghost use Rattle.model.specs.Decoded.{area_of, Stands, Decodes};
ghost use Rattle.model.specs.Answer.{answer_size};
ghost use Rattle.endings.specs.Ending.{with_residual, answer_bytes, marked};
ghost use Rattle.answers.specs.Reached.{spread_over, spread_leaving, answers_given};

use channel::ccw::piece_at;
use endings::Answer;
use model::decoded::{Area, Decoded};
use model::status::ChannelStatus;
use model::{answer, sizes};
use slices::put_at;

// A wrong length is the channel's to mark, in its status.
fn mark(answers: &mut [u8], at: usize, wrong: bool)
    requires { at < length answers.old }
    ensures { answers.new ≡ pick wrong (set answers.old at INCORRECT_LENGTH) answers.old }
{
    if wrong {
        answers[at] = ChannelStatus::INCORRECT_LENGTH;
    }
}

// Answer i goes to its place.
fn put_answer(answers: &mut [u8], i: usize, a: Answer, wrong: bool)
    requires { i * answer_size + answer_size ≤ length answers.old }
    ensures { answers.new ≡ put answers.old (i * answer_size) (marked wrong (answer_bytes a)) }
{
    let at = i * sizes::ANSWER;
    let front = numbers::bytes4(a.front);
    let back = numbers::bytes4(a.back);
    put_at(answers, at, &front, 4);
    put_at(answers, at + 4, &back, 4);
    mark(answers, at + answer::CHANNEL_STATUS, wrong);
}

// The pieces that are filled, and what is left of the count of the next one, the last that is reached.
#[derive(Clone, Copy)]
struct Spread {
    filled: usize,
    residual: usize,
}

// All but `left` bytes of an area's counts, over its pieces in turn: from the last piece back, for most commands leave none of it.
fn spread_leaving(chain: &[u8], a: Area, left: usize) -> Spread
    requires { Stands chain.now a × (left ≤ counts (area_of chain.now a)) }
    ensures over { (result.filled ≡ (spread_leaving chain.now a left).filled) × (result.residual ≡ (spread_leaving chain.now a left).residual) }
    ensures small { (result.filled ≤ a.end - a.next) × (result.residual < 65536) }
{
    let mut over = left;
    for i in (a.next..a.end).rev() {
        let p = piece_at(chain, i);
        if over < p.count {
            return Spread {
                filled: i + 1 - a.next,
                residual: over,
            };
        }
        over -= p.count;
    }
    Spread {
        filled: 0,
        residual: over,
    }
}

// A piece that was filled, and is not the last one reached, has zeros for an answer.
fn clear_answers(answers: &mut [u8], from: usize, n: usize)
    requires { (from + n) * answer_size ≤ length answers.old }
    ensures { answers.new ≡ put answers.old (from * answer_size) (zeros (n * answer_size)) }
{
    if n == 0 {
        return;
    }
    let at = from * sizes::ANSWER;
    let end = (from + n) * sizes::ANSWER;
    answers[at..end].fill(0);
}

// The answer of the last piece reached, with what is left of that piece's count, is answer i. How many there are then.
fn put_last(answers: &mut [u8], i: usize, last: Answer, residual: usize, wrong: bool) -> usize
    requires { (i * answer_size + answer_size ≤ length answers.old) × (last.front < 4294967296) × (residual < 65536) }
    ensures put { answers.new ≡ put answers.old (i * answer_size) (marked wrong (answer_bytes (with_residual last residual))) }
    ensures next { result ≡ i + 1 }
{
    put_answer(
        answers,
        i,
        Answer {
            front: last.front + residual,
            ..last
        },
        wrong,
    );
    i + 1
}

// The answers of a command that moved so many bytes over its data area, `given` answers having been given before. How many there are then.
pub fn put_answers(
    chain: &[u8],
    c: Decoded,
    answers: &mut [u8],
    given: usize,
    last: Answer,
    moved: usize,
    wrong: bool,
) -> usize
    requires { Decodes chain.now c × (moved ≤ c.count) × ((given + (c.area.end - c.area.next) + 1) * answer_size ≤ length answers.old) × (last.front < 4294967296) }
    ensures put { answers.new ≡ put answers.old (given * answer_size) (answers_given chain.now c.area last moved wrong) }
    ensures next { result ≡ given + ((spread_over chain.now c.area moved).filled + 1) }
    ensures whole { (spread_over chain.now c.area moved).residual < 65536 }
{
    let s = spread_leaving(chain, c.area, c.count - moved);
    clear_answers(answers, given, s.filled);
    put_last(answers, given + s.filled, last, s.residual, wrong)
}
