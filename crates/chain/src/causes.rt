// The causes that refuse a call before any command: 1 to 5 (`lent_cause`) and 8 (`map_cause`). The way in is `call_cause`, which is Ok where
// the chain may run; a call from C has cause 6 between the two. `store_wrong` is cause 2's rule, also where no chain is run.
ghost use Rattle.std.specs.Prelude.{◌≡◌, ◌/◌, ◌≤◌, length};
ghost use Rattle.model.specs.Rules.{first_of};
ghost use Rattle.model.specs.Alternates.{map_size};
ghost use Rattle.model.specs.Lent.{ccw_size, store_blocks};
ghost use Rattle.model.specs.Causes.{followed, all_chained, bad_chain, bad_store, lent_causes, map_causes, call_causes};
ghost use Rattle.model.specs.Safe.{Usable};
ghost use Rattle.model.specs.Told.{told};

use alternates::map_wrong;
use blocks::block_count;
use channel::ccw::piece_at;
use model::cause::Cause;
use model::ccw::Piece;
use model::device::Device;
use model::sizes;

// No CCW, more than 32, or a part of one.
fn chain_wrong(len: usize) -> bool
    ensures { result ≡ bad_chain len }
{
    len == 0 || sizes::CHAIN_LIMIT < len || len % sizes::CCW != 0
}

// No block, a part of one, or more than 131,072; more than 64 alternates, or no primary.
#[tactic(auto, unfolding(model::specs::Lent::store_blocks))]
pub fn store_wrong(d: Device, store: &[u8]) -> bool
    requires { Usable d }
    ensures { result ≡ bad_store d store.now }
{
    let len = store.len();
    let blocks = len / d.block;
    len == 0
        || len % d.block != 0
        || sizes::BLOCKS_LIMIT < blocks
        || sizes::ENTRIES < d.alternates
        || blocks <= d.alternates
}

// Another CCW follows: one more piece of the command, or another command.
#[tactic(auto, unfolding(model::specs::Lent::flag))]
fn another_follows(p: Piece) -> bool
    ensures { result ≡ followed p }
{
    p.flags.continued() || p.flags.chained()
}

// Each CCW has flag 80 or 40, so no CCW is the chain's last.
fn all_chained(chain: &[u8]) -> bool
    ensures { result ≡ all_chained chain.now (length chain.now / ccw_size) }
{
    (0..chain.len() / sizes::CCW).all(|i| another_follows(piece_at(chain, i)))
}

// The first of causes 1 to 5 that holds of the call.
#[tactic(auto, using(crate::proofs::Passed::table), unfolding(model::specs::Causes::lent_causes))]
pub fn lent_cause(
    d: Device,
    chain: &[u8],
    main: &[u8],
    store: &[u8],
    answers: &[u8],
) -> Result<(), Cause>
    requires { Usable d }
    ensures { told result ≡ first_of (lent_causes d chain.now main.now store.now answers.now) }
{
    if chain_wrong(chain.len()) {
        return Err(Cause::BadChain);
    }
    if store_wrong(d, store) {
        return Err(Cause::BadStore);
    }
    if sizes::STORAGE_LIMIT < main.len() {
        return Err(Cause::LongStorage);
    }
    if answers.len() < chain.len() {
        return Err(Cause::ShortAnswers);
    }
    if all_chained(chain) {
        return Err(Cause::AllChained);
    }
    Ok(())
}

// 8 where the map is not right for this device.
#[tactic(auto, using(crate::proofs::Passed::table), unfolding(model::specs::Causes::map_causes))]
pub fn map_cause(d: Device, store: &[u8], map: &[u8]) -> Result<(), Cause>
    requires { Usable d × (d.alternates ≤ store_blocks d store.now) × (length map.now ≡ map_size) }
    ensures { told result ≡ first_of (map_causes d store.now map.now) }
{
    if map_wrong(d.alternates, block_count(d, store), map) {
        return Err(Cause::BadMap);
    }
    Ok(())
}

// The first of causes 1 to 5 and 8 that holds of the call.
#[tactic(auto, using(crate::proofs::Passed::call_rules))]
pub fn call_cause(
    d: Device,
    chain: &[u8],
    main: &[u8],
    store: &[u8],
    map: &[u8],
    answers: &[u8],
) -> Result<(), Cause>
    requires { Usable d × (length map.now ≡ map_size) }
    ensures { told result ≡ first_of (call_causes d chain.now main.now store.now map.now answers.now) }
{
    lent_cause(d, chain, main, store, answers)?;
    map_cause(d, store, map)
}
