// The call: refused as a whole by the first of causes 1 to 5 and 8 that holds, or the chain run from a fresh state.
ghost use Rattle.std.specs.Prelude.{◌≡◌, ◌≤◌, length, IfOk};
ghost use Rattle.model.specs.Rules.{first_of};
ghost use Rattle.model.specs.Alternates.{map_size};
ghost use Rattle.model.specs.Causes.{call_causes};
ghost use Rattle.model.specs.Chain.{call_of};
ghost use Rattle.model.specs.Host.{result_of};
ghost use Rattle.model.specs.Safe.{Usable};
ghost use Rattle.model.specs.Told.{told};
ghost use Rattle.chain.specs.Outcome.{reached_in};
ghost use Rattle.chain.specs.Walk.{Allowed, called_with};

use crate::causes::call_cause;
use crate::run::{Walked, run_chain};
use model::cause::Cause;
use model::device::Device;
use model::record::Record;
use record::record_left;
use unit_state::Running;

// A call that no cause refuses.
pub fn run_allowed(
    d: Device,
    u: Record,
    chain: &[u8],
    main: &mut [u8],
    store: &mut [u8],
    map: &mut [u8],
    answers: &mut [u8],
) -> Walked
    requires { Usable d × (length map.old ≡ map_size) × (first_of (call_causes d chain.now main.old store.old map.old answers.old) ≡ 0) }
    ensures { Allowed d u chain.now main.old store.old map.old answers.old
        result main.new store.new map.new answers.new }
{
    run_chain(d, chain, u, Running::start(u), main, store, map, answers)
}

// What a call that no cause refuses gives by value.
#[derive(Clone, Copy)]
pub struct Returned {
    pub reached: usize,
    pub unit: Record,
}

#[tactic(auto, using(crate::proofs::Passed::refused_call))]
pub fn call(
    d: Device,
    u: Record,
    chain: &[u8],
    main: &mut [u8],
    store: &mut [u8],
    map: &mut [u8],
    answers: &mut [u8],
) -> Result<Returned, Cause>
    requires { Usable d × (length map.old ≡ map_size) }
    ensures { called_with u result main.new store.new map.new answers.new
        ≡ call_of d chain.now main.old store.old u map.old answers.old }
{
    call_cause(d, chain, main, store, map, answers)?;
    let walked = run_allowed(d, u, chain, main, store, map, answers);
    Ok(Returned {
        reached: walked.reached,
        unit: record_left(u, walked.left),
    })
}

// What a call says as one number: 256 times the cause plus the commands reached. A refused call reached none.
#[tactic(auto, unfolding(model::specs::Host::result_of))]
pub fn result_of(outcome: Result<usize, Cause>) -> u32
    requires { IfOk outcome (λ reached. reached ≤ 32) }
    ensures { result ≡ result_of (told outcome) (reached_in outcome) }
{
    match outcome {
        Ok(reached) => reached as u32,
        Err(cause) => u32::from(u8::from(cause)) * 256,
    }
}

// The same by the cause's number, or 0, and any commands reached.
#[tactic(auto, unfolding(model::specs::Host::result_of))]
pub fn result_numbered(cause: u8, reached: usize) -> u32
    requires { reached ≤ 32 }
    ensures { result ≡ result_of cause reached }
{
    u32::from(cause) * 256 + reached as u32
}
