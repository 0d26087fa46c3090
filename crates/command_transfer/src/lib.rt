// READ, WRITE and READ IPL: the commands that move blocks. Each tests what stands before it, moves its blocks, and ends.
#![tactic(auto)]

ghost use Rattle.std.specs.Prelude.{◌≡◌, true, ◌≤◌, ◌<◌};
ghost use Rattle.model.specs.declared.record.Record.{Record};
ghost use Rattle.model.specs.Names.{READ, WRITE, READ_IPL};
ghost use Rattle.model.specs.Rules.{first_of};
ghost use Rattle.model.specs.Causes.{a_locate, none_or_ipl, transfer_rules};
ghost use Rattle.model.specs.Commands.{begun, whole_device};
ghost use Rattle.model.specs.Safe.{Usable};
ghost use Rattle.model.specs.Told.{told};
ghost use Rattle.unit_state.specs.Standing.{holding, Sound, Handed};
ghost use Rattle.endings.specs.Ending.{Performs};
ghost use Rattle.command_transfer.specs.Transferred.{Placed, move_of, read_end, written_by, write_end, ipl_end};

use blocks::{begun, block_count, read_blocks, read_mapped, store_blocks};
use buffered_log::{movement_counted, read_counted, written_counted};
use endings::{Ended, accept, refuse};
use model::cause::Cause;
use model::decoded::Decoded;
use model::device::Device;
use model::extent::{Displacement, Extent, Offset};
use model::operation;
use model::record::Counts;
use model::state::Before;
use unit_state::Running;

// Directly before stood an accepted LOCATE.
fn after_locate(before: Before) -> bool
    ensures { result ≡ a_locate before }
{
    match before {
        Before::Nothing => false,
        Before::ReadIpl => false,
        Before::Locate => true,
        Before::Other => false,
    }
}

// Nothing stood directly before, or a READ IPL.
fn none_or_ipl(before: Before) -> bool
    ensures { result ≡ none_or_ipl before }
{
    match before {
        Before::Nothing => true,
        Before::ReadIpl => true,
        Before::Locate => false,
        Before::Other => false,
    }
}

// Whether a READ or a WRITE may stand here. `follows`: it may follow the operation that was located.
fn transfer_cause(s: Running, follows: bool) -> Result<(), Cause>
    ensures { told result ≡ first_of (transfer_rules s.before follows) }
{
    let before = s.before;
    if !after_locate(before) {
        return Err(Cause::NoLocate);
    }
    if !follows {
        return Err(Cause::OtherOperation);
    }
    Ok(())
}

// What a transfer moves: from which block, how many bytes it can, and how many it does.
#[derive(Clone, Copy)]
pub struct Move {
    pub block: usize,
    pub can: usize,
    pub n: usize,
}

// By the LOCATE before, the address rule and the count.
fn located_move(d: Device, c: Decoded, s: Running) -> Move
    requires { Placed d s.extent s.located }
    ensures { result ≡ move_of d c s }
{
    let e = s.extent;
    let l = s.located;
    let can = (l.blocks as usize) * d.block;
    Move {
        block: e.address(l.displacement) as usize,
        can: can,
        n: c.count.min(can),
    }
}

fn read_done(d: Device, c: Decoded, s: Running, m: Move) -> Ended
    requires { Usable d × (m.n ≤ 2097120) × (begun d m.n < 65536) }
    ensures { result ≡ read_end d c s m }
{
    let blocks = begun(d, m.n);
    let t = s.after(read_counted(blocks, s.counts), Before::Other);
    accept(c, t, m.n, m.can, blocks)
}

pub fn read(
    d: Device,
    chain: &[u8],
    c: Decoded,
    s: Running,
    main: &mut [u8],
    store: &[u8],
    map: &[u8],
) -> Ended
    requires { Sound d s store.now map.now × Handed chain.now c main.old × (c.command ≡ READ) }
    ensures { (u : Record) → Performs d chain.now c s result (holding u map.now) main.old store.now (holding u map.now) main.new store.now }
{
    let l = s.located;
    if let Err(cause) = transfer_cause(s, operation::reads(l.operation)) {
        return refuse(s, cause);
    }
    let m = located_move(d, c, s);
    let blocks = l.blocks as usize;
    read_blocks(d, store, map, m.block, blocks, chain, c.area, main, m.n);
    read_done(d, c, s, m)
}

// The counts after a WRITE of so many blocks: those of a write and check are counted.
fn written(code: u32, blocks: usize, k: Counts) -> Counts
    requires { blocks < 4294967296 }
    ensures { result ≡ written_by code blocks k }
{
    if code == operation::WRITE_CHECK {
        return written_counted(blocks, k);
    }
    k
}

fn write_done(d: Device, c: Decoded, s: Running, m: Move) -> Ended
    requires { Usable d × (m.n ≤ 2097120) × (begun d m.n < 65536) }
    ensures { result ≡ write_end d c s m }
{
    let l = s.located;
    let blocks = l.blocks as usize;
    let t = s.after(written(l.operation, blocks, s.counts), Before::Other);
    accept(c, t, m.n, m.can, begun(d, m.n))
}

pub fn write(
    d: Device,
    chain: &[u8],
    c: Decoded,
    s: Running,
    main: &[u8],
    store: &mut [u8],
    map: &[u8],
) -> Ended
    requires { Sound d s store.old map.now × Handed chain.now c main.now × (c.command ≡ WRITE) }
    ensures { (u : Record) → Performs d chain.now c s result (holding u map.now) main.now store.old (holding u map.now) main.now store.new }
{
    let l = s.located;
    if let Err(cause) = transfer_cause(s, operation::writes(l.operation)) {
        return refuse(s, cause);
    }
    let m = located_move(d, c, s);
    let blocks = l.blocks as usize;
    store_blocks(d, store, map, m.block, blocks, chain, c.area, main, m.n);
    write_done(d, c, s, m)
}

// The extent that READ IPL sets, over a device of so many blocks.
fn whole_device(blocks: usize) -> Extent
    requires { (1 ≤ blocks) × (blocks ≤ 131072) }
    ensures { result ≡ whole_device blocks }
{
    Extent {
        mask: 0,
        offset: Offset(0),
        first: Displacement(0),
        last: Displacement((blocks - 1) as u32),
    }
}

fn ipl_done(d: Device, c: Decoded, s: Running, n: usize, blocks: usize) -> Ended
    requires { (1 ≤ blocks) × (blocks ≤ 131072) }
    ensures { result ≡ ipl_end d c s n blocks }
{
    let k = movement_counted(read_counted(1, s.counts));
    let t = s.extent_set(k, whole_device(blocks), Before::ReadIpl);
    accept(c, t, n, d.block, 1)
}

pub fn read_ipl(
    d: Device,
    chain: &[u8],
    c: Decoded,
    s: Running,
    main: &mut [u8],
    store: &[u8],
    map: &[u8],
) -> Ended
    requires { Sound d s store.now map.now × Handed chain.now c main.old × (c.command ≡ READ_IPL) }
    ensures { (u : Record) → Performs d chain.now c s result (holding u map.now) main.old store.now (holding u map.now) main.new store.now }
{
    let before = s.before;
    if !none_or_ipl(before) {
        return refuse(s, Cause::IplNotFirst);
    }
    let n = c.count.min(d.block);
    read_mapped(d, store, map, 0, 1, chain, c.area, main, n);
    ipl_done(d, c, s, n, block_count(d, store))
}
