// The run of a chain: one turn for each command reached, until one of them ends it.
ghost use Rattle.std.specs.Prelude.{◌≡◌, not, ◌&&◌, ℕ, ◌≤◌, length};
ghost use Rattle.numbers.specs.Bits.{bit};
ghost use Rattle.model.specs.Names.{chain_command};
ghost use Rattle.model.specs.Safe.{Closes};
ghost use Rattle.unit_state.specs.Standing.{holding, Sound};
ghost use Rattle.chain.specs.Walk.{is_accepted, system_of, Begins, InRun, Turned, Walks};

use answers::put_answers;
use channel::ccw::command_at;
use model::ccw::Flags;
use model::device::Device;
use model::kind::Kind;
use model::record::Record;
use unit::step;
use unit_state::{Left, Running};

// "A refusal ends the chain", a wrong length ends it, and so does a last piece without flag 40.
fn goes_on(last: Flags, kind: Kind, wrong: bool) -> bool
    ensures { result ≡ (is_accepted kind && not wrong && bit last.0 chain_command) }
{
    kind == Kind::Accepted && !wrong && last.chained()
}

// How one turn leaves the unit, the CCW behind its command, how many answers there are, and whether the chain goes on.
#[derive(Clone, Copy)]
pub struct Turn {
    pub left: Left,
    pub end: usize,
    pub reached: usize,
    pub go: bool,
}

// The command that begins with CCW `at`: the command itself, and its answers behind those that were given.
fn one_turn(
    d: Device,
    chain: &[u8],
    at: usize,
    reached: usize,
    u: Record,
    s: Running,
    main: &mut [u8],
    store: &mut [u8],
    map: &mut [u8],
    answers: &mut [u8],
) -> Turn
    requires { InRun d chain.now at reached s store.old map.old answers.old }
    ensures { (i : ℕ) → Begins chain.now i at → Turned d chain.now (holding u map.new) s (system_of (holding u map.old) s main.old store.old answers.old reached)
        at i result main.new store.new answers.new }
{
    let c = command_at(chain, at);
    let e = step(d, u, chain, c, s, main, store, map);
    let l = e.left;
    let given = put_answers(chain, c, answers, reached, e.answer, e.moved, e.wrong);
    Turn {
        left: l,
        end: c.area.end,
        reached: given,
        go: goes_on(c.flags, l.kind, e.wrong),
    }
}

// How a run leaves the unit, and how many answers were given.
#[derive(Clone, Copy)]
pub struct Walked {
    pub left: Left,
    pub reached: usize,
}

// The chain ends in what is lent of it: a command that goes on has another behind it.
pub fn run_chain(
    d: Device,
    chain: &[u8],
    u: Record,
    s: Running,
    main: &mut [u8],
    store: &mut [u8],
    map: &mut [u8],
    answers: &mut [u8],
) -> Walked
    requires { Closes chain.now 0 × (length chain.now ≤ length answers.old) × (length chain.now ≤ 256) × Sound d s store.old map.old }
    ensures { Walks d chain.now (holding u map.new) s (system_of (holding u map.old) s main.old store.old answers.old 0)
        result main.new store.new answers.new }
{
    let mut state = s;
    let mut at = 0;
    let mut reached = 0;
    loop {
        let t = one_turn(d, chain, at, reached, u, state, main, store, map, answers);
        let l = t.left;
        if !t.go {
            return Walked {
                left: l,
                reached: t.reached,
            };
        }
        state = l.state;
        at = t.end;
        reached = t.reached;
    }
}
