// A call from C, in two steps: whether a cause from 1 to 6 refuses it, and, of one that none of them does, cause 8 or the run. A chain
// alone and each chain of a class take both.
ghost use Rattle.std.specs.Prelude.{◌≡◌, ◌≤◌, IfOk};
ghost use Rattle.model.specs.Rules.{first_of};
ghost use Rattle.model.specs.Host.{result_of, host_call_of};
ghost use Rattle.model.specs.Safe.{Usable};
ghost use Rattle.model.specs.Told.{told};
ghost use Rattle.chain.specs.Outcome.{reached_in};
ghost use Rattle.loughrella.specs.Sized.{sized_causes};

use chain::call::run_allowed;
use chain::causes::{lent_cause, map_cause};
use model::cause::Cause;
use model::device::Device;
use model::sizes;
use record::{pack_left, unpack};

// The first of causes 1 to 6 that holds of the call.
#[tactic(auto, using(crate::proofs::Hosted::sized_rules))]
pub fn host_cause(
    d: Device,
    chain: &[u8],
    storage: &[u8],
    store: &[u8],
    unit: &[u8],
    answers: &[u8],
) -> Result<(), Cause>
    requires { Usable d }
    ensures { told result ≡ first_of (sized_causes d chain.now storage.now store.now unit.now answers.now) }
{
    lent_cause(d, chain, storage, store, answers)?;
    if unit.len() != sizes::UNIT_RECORD {
        return Err(Cause::BadRecord);
    }
    Ok(())
}

// A call that none of causes 1 to 6 refuses: 8, or the commands reached.
#[tactic(auto, using(crate::proofs::Hosted::hosted_rules))]
pub fn run_hosted(
    d: Device,
    chain: &[u8],
    storage: &mut [u8],
    store: &mut [u8],
    unit: &mut [u8],
    answers: &mut [u8],
) -> Result<usize, Cause>
    requires { Usable d × (first_of (sized_causes d chain.now storage.old store.old unit.old answers.old) ≡ 0) }
    ensures call { record { result = result_of (told result) (reached_in result); main = storage.new; store = store.new; unit = unit.new; answers = answers.new }
        ≡ host_call_of d chain.now storage.old store.old unit.old answers.old }
    ensures few { IfOk result (λ reached. reached ≤ 32) }
{
    map_cause(d, store, &unit[sizes::RECORD..])?;
    let u = unpack(unit);
    let ran = run_allowed(
        d,
        u,
        chain,
        storage,
        store,
        &mut unit[sizes::RECORD..],
        answers,
    );
    pack_left(ran.left, &mut unit[..sizes::RECORD]);
    Ok(ran.reached)
}
