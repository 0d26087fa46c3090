// The functions of `loughrella` under the names that C calls them by: each calls the one of its name, and promises what that promises.
// include/loughrella.h says it to a C programmer.
#![tactic(auto)]

ghost use Rattle.std.specs.Prelude.{◌≡◌};
ghost use Rattle.model.specs.Host.{host_call, set_up};
ghost use Rattle.model.specs.Class.{run_class};
ghost use Rattle.model.specs.GiveBack.{give_back};

// The chain is run. 256 times the cause plus the commands reached.
#[unsafe(no_mangle)]
pub extern "C" fn loughrella_run(
    chain: &[u8],
    storage: &mut [u8],
    store: &mut [u8],
    alternates: u32,
    unit: &mut [u8],
    answers: &mut [u8],
) -> u32
    ensures { record { result = result; main = storage.new; store = store.new; unit = unit.new; answers = answers.new }
        ≡ host_call alternates chain.now storage.old store.old unit.old answers.old }
{
    loughrella::loughrella_run(chain, storage, store, alternates, unit, answers)
}

// A class is run: the chains of one buffer, one after the other. 0, or 256 times 7.
#[unsafe(no_mangle)]
pub extern "C" fn loughrella_run_class(
    chains: &[u8],
    storage: &mut [u8],
    store: &mut [u8],
    alternates: u32,
    unit: &mut [u8],
    results: &mut [u8],
) -> u32
    ensures { record { result = result; left = record { main = storage.new; store = store.new; unit = unit.new; results = results.new } }
        ≡ run_class alternates chains.now storage.old store.old unit.old results.old }
{
    loughrella::loughrella_run_class(chains, storage, store, alternates, unit, results)
}

// The record of a new unit, ready or not, read-only or not. 0, or 256 times 6.
#[unsafe(no_mangle)]
pub extern "C" fn loughrella_record(unit: &mut [u8], ready: u8, read_only: u8) -> u32
    ensures { record { result = result; unit = unit.new } ≡ set_up unit.old ready read_only }
{
    loughrella::loughrella_record(unit, ready, read_only)
}

// The alternate of a block is given back. 0, or 256 times the cause.
#[unsafe(no_mangle)]
pub extern "C" fn loughrella_give_back(
    store: &mut [u8],
    alternates: u32,
    unit: &mut [u8],
    block: u32,
) -> u32
    ensures { record { result = result; store = store.new; unit = unit.new } ≡ give_back alternates store.old unit.old block }
{
    loughrella::loughrella_give_back(store, alternates, unit, block)
}
