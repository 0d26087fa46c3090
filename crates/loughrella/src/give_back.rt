// An alternate is given back, in two steps: whether a cause refuses it (`give_back_cause`), and, where none does, the data brought to the
// block's own place and the map without the block (`give_back`).
ghost use Rattle.std.specs.Prelude.{◌≡◌, ◌<◌};
ghost use Rattle.model.specs.Rules.{first_of};
ghost use Rattle.model.specs.Alternates.{alternate_of, unmapped};
ghost use Rattle.model.specs.Lent.{block_count};
ghost use Rattle.model.specs.Causes.{device_causes, return_causes, give_back_causes};
ghost use Rattle.model.specs.GiveBack.{brought_home};
ghost use Rattle.model.specs.Safe.{Usable, Mounted};
ghost use Rattle.model.specs.Told.{told};

use alternates::{alternate_of, entries_wrong, unmap};
use blocks::{block_count, bring_home};
use chain::causes::store_wrong;
use model::cause::Cause;
use model::device::Device;
use model::sizes;

// The first of causes 2, 6 and 8 that holds of a device as it is lent.
#[tactic(auto, using(crate::proofs::Returned::device_rules), unfolding(model::specs::Causes::device_causes, model::specs::Causes::map_causes))]
fn device_cause(d: Device, store: &[u8], unit: &[u8]) -> Result<(), Cause>
    requires { Usable d }
    ensures { told result ≡ first_of (device_causes d store.now unit.now) }
{
    if store_wrong(d, store) {
        return Err(Cause::BadStore);
    }
    if unit.len() != sizes::UNIT_RECORD {
        return Err(Cause::BadRecord);
    }
    if entries_wrong(d.alternates, block_count(d, store), &unit[sizes::RECORD..]) {
        return Err(Cause::BadMap);
    }
    Ok(())
}

// The first of causes 50 and 51 that holds of a block.
#[tactic(auto, using(crate::proofs::Returned::return_rules))]
fn return_cause(d: Device, store: &[u8], map: &[u8], block: usize) -> Result<(), Cause>
    requires { Mounted d store.now map.now }
    ensures { told result ≡ first_of (return_causes d store.now map.now block) }
{
    if block_count(d, store) <= block {
        return Err(Cause::PastBlocks);
    }
    if alternate_of(d.alternates, map, block).is_none() {
        return Err(Cause::NotMapped);
    }
    Ok(())
}

// The first of causes 2, 6, 8, 50 and 51 that holds.
#[tactic(auto, using(crate::proofs::Returned::give_back_rules))]
pub fn give_back_cause(d: Device, store: &[u8], unit: &[u8], block: usize) -> Result<(), Cause>
    requires { Usable d }
    ensures { told result ≡ first_of (give_back_causes d store.now unit.now block) }
{
    device_cause(d, store, unit)?;
    return_cause(d, store, &unit[sizes::RECORD..], block)
}

// The block, which is mapped, has its own place back. First the store: where the data lies, the map tells.
#[tactic(auto, using(model::proofs::Blocks::mounted_primaries))]
pub fn give_back(d: Device, store: &mut [u8], map: &mut [u8], block: usize)
    requires { Mounted d store.old map.old × (block < block_count d store.old) × (alternate_of map.old d.alternates block < d.alternates) }
    ensures store { store.new ≡ brought_home d map.old store.old block }
    ensures map { map.new ≡ unmapped map.old d.alternates block }
{
    bring_home(d, store, map, block);
    unmap(d.alternates, map, block);
}
