// What C gets by way of `loughrella_c`: a chain run, a class of chains run, a unit record set up, an alternate given back.
// None has a requires: any slices get the result, and are left with the bytes, that the definition says.
#![tactic(auto)]

pub mod class;
pub mod give_back;
pub mod host;

ghost use Rattle.std.specs.Prelude.{◌≡◌};
ghost use Rattle.model.specs.Host.{host_call, set_up};
ghost use Rattle.model.specs.Class.{run_class};
ghost use Rattle.model.specs.GiveBack.{give_back};

use crate::class::{class_wrong, mark_each};
use crate::give_back::{give_back, give_back_cause};
use crate::host::{host_cause, run_hosted};
use chain::call::result_of;
use model::cause::Cause;
use model::device::Device;
use model::sizes;
use record::{new_record, pack};

// The chain is run. 256 times the cause plus the commands reached.
#[tactic(auto, using(crate::proofs::Hosted::refused_sized))]
pub fn loughrella_run(
    chain: &[u8],
    storage: &mut [u8],
    store: &mut [u8],
    alternates: u32,
    unit: &mut [u8],
    answers: &mut [u8],
) -> u32
    ensures { record { result = result; main = storage.new; store = store.new; unit = unit.new; answers = answers.new }
        ≡ host_call alternates chain.now storage.old store.old unit.old answers.old }
{
    let d = Device::class_a(alternates);
    if let Err(cause) = host_cause(d, chain, storage, store, unit, answers) {
        return result_of(Err(cause));
    }
    result_of(run_hosted(d, chain, storage, store, unit, answers))
}

// A class is run: the chains of one buffer, one after the other. 0, or 256 times 7.
#[tactic(auto, using(model::proofs::Class::class_refused, model::proofs::Class::class_right), unfolding(model::specs::Host::result_of))]
pub fn loughrella_run_class(
    chains: &[u8],
    storage: &mut [u8],
    store: &mut [u8],
    alternates: u32,
    unit: &mut [u8],
    results: &mut [u8],
) -> u32
    ensures { record { result = result; left = record { main = storage.new; store = store.new; unit = unit.new; results = results.new } }
        ≡ run_class alternates chains.now storage.old store.old unit.old results.old }
{
    if class_wrong(chains, results.len()) {
        return result_of(Err(Cause::BadClass));
    }
    mark_each(
        Device::class_a(alternates),
        chains,
        storage,
        store,
        unit,
        results,
    );
    0
}

// The record of a new unit, ready or not, read-only or not. 0, or 256 times 6.
#[tactic(auto, using(crate::proofs::Hosted::front_taken, model::proofs::Hosts::set_up_none))]
pub fn loughrella_record(unit: &mut [u8], ready: u8, read_only: u8) -> u32
    ensures { record { result = result; unit = unit.new } ≡ set_up unit.old ready read_only }
{
    if unit.len() != sizes::UNIT_RECORD {
        return result_of(Err(Cause::BadRecord));
    }
    pack(new_record(ready, read_only), &mut unit[..sizes::RECORD]);
    unit[sizes::RECORD..].fill(0);
    0
}

// The alternate of a block is given back. 0, or 256 times the cause.
#[tactic(auto, using(crate::proofs::Returned::returned_rules))]
pub fn loughrella_give_back(store: &mut [u8], alternates: u32, unit: &mut [u8], block: u32) -> u32
    ensures { record { result = result; store = store.new; unit = unit.new } ≡ give_back alternates store.old unit.old block }
{
    let device = Device::class_a(alternates);
    if let Err(refusal) = give_back_cause(device, store, unit, block as usize) {
        return result_of(Err(refusal));
    }
    give_back(device, store, &mut unit[sizes::RECORD..], block as usize);
    0
}
