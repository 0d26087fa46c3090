// The run over a unit record that is lent and updated in place: `run`; `run_lending` lends it a record of its own. Neither has a
// requires; a result is 256 times the cause plus the commands reached.
#![tactic(auto)]

ghost use Rattle.in_place.specs.Run.{InPlace, ByValue};

use chain::call::{call, result_of};
use model::device::Device;
use model::record::UnitRecord;

// What a run gives back by value.
#[derive(Clone, Copy)]
pub struct Ran {
    pub unit: UnitRecord,
    pub code: u32,
}

// The core, by value.
fn run_core(
    r: UnitRecord,
    chain: &[u8],
    storage: &mut [u8],
    store: &mut [u8],
    alternates: u32,
    answers: &mut [u8],
) -> Ran
    ensures { ByValue r alternates chain.now storage.old store.old answers.old
        result storage.new store.new answers.new }
{
    let mut map = r.map;
    let called = call(
        Device::class_a(alternates),
        r.unit,
        chain,
        storage,
        store,
        &mut map,
        answers,
    );
    match called {
        Ok(returned) => Ran {
            unit: UnitRecord {
                unit: returned.unit,
                map: map,
            },
            code: result_of(Ok(returned.reached)),
        },
        // nothing was written
        Err(cause) => Ran {
            unit: r,
            code: result_of(Err(cause)),
        },
    }
}

// The record is lent, and updated in place.
pub fn run(
    u: &mut UnitRecord,
    chain: &[u8],
    storage: &mut [u8],
    store: &mut [u8],
    alternates: u32,
    answers: &mut [u8],
) -> u32
    ensures { InPlace u.old alternates chain.now storage.old store.old answers.old
        result u.new storage.new store.new answers.new }
{
    let ran = run_core(*u, chain, storage, store, alternates, answers);
    *u = ran.unit;
    ran.code
}

// By value again: a local is lent to the run in place.
pub fn run_lending(
    r: UnitRecord,
    chain: &[u8],
    storage: &mut [u8],
    store: &mut [u8],
    alternates: u32,
    answers: &mut [u8],
) -> Ran
    ensures { ByValue r alternates chain.now storage.old store.old answers.old
        result storage.new store.new answers.new }
{
    let mut t = r;
    let code = run(&mut t, chain, storage, store, alternates, answers);
    Ran {
        unit: t,
        code: code,
    }
}
