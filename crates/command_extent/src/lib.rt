// DEFINE EXTENT: its sixteen bytes taken apart, and taken or refused (`define_parameters`); and the command, `define_extent`. It changes no storage.
#![tactic(auto)]

ghost use Rattle.std.specs.Prelude.{◌≡◌, ◌≤◌, length};
ghost use Rattle.numbers.specs.Bits.{bit};
ghost use Rattle.model.specs.Rules.{first_of};
ghost use Rattle.model.specs.Causes.{bad_mask, other_size, past_device, extent_causes};
ghost use Rattle.model.specs.declared.record.UnitRecord.{UnitRecord};
ghost use Rattle.model.specs.Lent.{block_count};
ghost use Rattle.model.specs.Safe.{Usable};
ghost use Rattle.model.specs.Names.{DEFINE_EXTENT};
ghost use Rattle.model.specs.Parameters.{extent_length, extent_in};
ghost use Rattle.model.specs.Told.{told};
ghost use Rattle.unit_state.specs.Standing.{Handed};
ghost use Rattle.endings.specs.Ending.{Performs};
ghost use Rattle.command_extent.specs.Answers.{defined_by};

use blocks::block_count;
use endings::{Ended, accept, refuse, refuse_parameters};
use model::cause::Cause;
use model::decoded::Decoded;
use model::device::Device;
use model::extent::{Displacement, Extent, Offset};
use model::sizes;
use model::state::Before;
use storage::fetch;
use unit_state::Running;

// Mask bits 0-1 are 10, or one of bits 2, 3, 6, 7 is one, or byte 1 is not zero.
fn mask_wrong(mask: u8, reserved: u8) -> bool
    ensures { result ≡ bad_mask mask reserved }
{
    let kind = mask >> 6;
    if kind == 2 {
        return true;
    }
    let others = mask & 0x33;
    if others != 0 {
        return true;
    }
    reserved != 0
}

fn maintenance(mask: u8) -> bool
    ensures { result ≡ bit mask 4 }
{
    mask & 0x08 != 0
}

// Neither zero, which stands for the device's own, nor the device's own.
fn size_wrong(d: Device, size: usize) -> bool
    ensures { result ≡ other_size d size }
{
    if size == 0 {
        return false;
    }
    size != d.block
}

#[tactic(auto, unfolding(model::specs::Parameters::extent_in))]
fn extent_in(p: &[u8; sizes::EXTENT]) -> Extent
    ensures { result ≡ extent_in p.now }
{
    Extent {
        mask: p[0] as u32,
        offset: Offset(numbers::be4(p, 4)),
        first: Displacement(numbers::be4(p, 8)),
        last: Displacement(numbers::be4(p, 12)),
    }
}

// The last block of the extent is not one of the device's.
fn past_device(e: Extent, blocks: usize) -> bool
    requires { e.first.0 ≤ e.last.0 }
    ensures { result ≡ past_device e blocks }
{
    let last = e.last;
    let end = e.address(last);
    blocks as u64 <= end
}

// The sixteen bytes, which say extent e, on this device, of so many blocks.
fn define_parameters(
    d: Device,
    blocks: usize,
    e: Extent,
    p: &[u8; sizes::EXTENT],
) -> Result<(), Cause>
    requires { e ≡ extent_in p.now }
    ensures { told result ≡ first_of (extent_causes d blocks p.now) }
{
    if mask_wrong(p[0], p[1]) {
        return Err(Cause::BadMask);
    }
    if maintenance(p[0]) {
        return Err(Cause::Maintenance);
    }
    if size_wrong(d, numbers::be2(p, 2)) {
        return Err(Cause::OtherSize);
    }
    if e.last.0 < e.first.0 {
        return Err(Cause::FirstAfterLast);
    }
    if past_device(e, blocks) {
        return Err(Cause::PastDevice);
    }
    Ok(())
}

// The command by its sixteen bytes.
fn define_by(d: Device, blocks: usize, c: Decoded, s: Running, p: &[u8; sizes::EXTENT]) -> Ended
    ensures { result ≡ defined_by d blocks c s p.now }
{
    let e = extent_in(p);
    if let Err(cause) = define_parameters(d, blocks, e, p) {
        return refuse_parameters(s, cause, sizes::EXTENT, [0u8; sizes::LOCATE]);
    }
    let t = s.extent_set(s.counts, e, Before::Other);
    accept(c, t, sizes::EXTENT, sizes::EXTENT, 0)
}

pub fn define_extent(
    d: Device,
    chain: &[u8],
    c: Decoded,
    s: Running,
    main: &[u8],
    store: &[u8],
) -> Ended
    requires { Usable d × (1 ≤ block_count d store.now) × Handed chain.now c main.now × (c.command ≡ DEFINE_EXTENT) }
    ensures { (u : UnitRecord) → Performs d chain.now c s result u main.now store.now u main.now store.now }
{
    if c.count < sizes::EXTENT {
        return refuse(s, Cause::ShortExtent);
    }
    if s.defined {
        return refuse(s, Cause::SecondExtent);
    }
    let mut p = [0u8; sizes::EXTENT];
    fetch(chain, c.area, main, &mut p);
    define_by(d, block_count(d, store), c, s, &p)
}
