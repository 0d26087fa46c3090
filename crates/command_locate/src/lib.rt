// LOCATE: its eight bytes taken apart, and taken or refused (`locate_parameters`); and the command, `locate`. It changes no storage and, but for a format, no map.
#![tactic(auto)]

ghost use Rattle.std.specs.Prelude.{◌≡◌, true, List, ℕ, ◌<◌, length};
ghost use Rattle.numbers.specs.Choice.{one_of};
ghost use Rattle.model.specs.Names.{LOCATE, format};
ghost use Rattle.model.specs.Alternates.{unused_in};
ghost use Rattle.model.specs.Rules.{first_of};
ghost use Rattle.model.specs.Parameters.{locate_length, located_in, processed, operations, forbids, outside};
ghost use Rattle.model.specs.Causes.{bad_modifiers, bad_count, bad_replication, inhibits, none_to_take, location_causes, permission_causes};
ghost use Rattle.model.specs.Commands.{map_after};
ghost use Rattle.model.specs.Safe.{HasMap, OnDevice, InExtent};
ghost use Rattle.model.specs.Sense.{shown};
ghost use Rattle.unit_state.specs.Standing.{holding, state_of, Handed};
ghost use Rattle.endings.specs.Ending.{Performs};
ghost use Rattle.model.specs.Told.{cause_number, told};
ghost use Rattle.command_locate.specs.Answers.{located_by, map_left};

use alternates::{format_block, unused};
use buffered_log::movement_counted;
use endings::{Ended, accept, refuse, refuse_parameters};
use model::cause::Cause;
use model::decoded::Decoded;
use model::device::Device;
use model::extent::{Displacement, Extent, Located};
use model::record::Record;
use model::{operation, sizes};
use storage::fetch;
use unit_state::Running;

// One of modifier bits 0 to 2 is one. Bit 3 is not used.
fn modifier_wrong(byte: u8) -> bool
    ensures { result ≡ bad_modifiers byte }
{
    byte & 0xE0 != 0
}

fn located_in(p: &[u8; sizes::LOCATE]) -> Located
    ensures { (result ≡ located_in p.now) × (result.operation < 16) × (result.blocks < 65536) }
{
    Located {
        operation: (p[0] & 0x0F) as u32,
        displacement: Displacement(numbers::be4(p, 4)),
        blocks: numbers::be2(p, 2) as u16,
    }
}

// One of the five.
#[tactic(auto, unfolding(numbers::specs::Choice::one_of))]
fn is_operation(code: u32) -> bool
    ensures { result ≡ one_of operations code }
{
    matches!(
        code,
        operation::FORMAT
            | operation::WRITE_DATA
            | operation::WRITE_CHECK
            | operation::READ_DATA
            | operation::READ_REPLICATED
    )
}

// No block, or a format of other than one.
fn count_wrong(l: Located) -> bool
    ensures { result ≡ bad_count l }
{
    if l.blocks == 0 {
        return true;
    }
    if l.operation != operation::FORMAT {
        return false;
    }
    l.blocks != 1
}

// A replicated read whose range is not made of whole units.
fn replication_wrong(l: Located, replication: usize) -> bool
    requires { l.blocks ≡ 0 → ⊥ }
    ensures { result ≡ bad_replication l replication }
{
    if l.operation != operation::READ_REPLICATED {
        return false;
    }
    let unit = l.blocks as usize;
    if replication < unit {
        return true;
    }
    replication % unit != 0
}

// As many blocks as the LOCATE has to hold against the extent.
fn blocks_processed(l: Located, replication: usize) -> usize
    ensures { result ≡ processed l replication }
{
    if l.operation == operation::READ_REPLICATED {
        replication
    } else {
        l.blocks as usize
    }
}

fn outside_extent(e: Extent, d: Displacement, n: usize) -> bool
    requires { n < 65536 }
    ensures { result ≡ outside e d n }
{
    if d.0 < e.first.0 {
        return true;
    }
    let end = (d.0 as u64) + (n as u64);
    let past = (e.last.0 as u64) + 1;
    past < end
}

// Mask bits 0-1: 00 and 01 forbid a format, 01 the other writes too; 11 forbids nothing, and 10, which is invalid, every operation.
fn mask_forbids(mask: u32, operation: u32) -> bool
    requires { operation < 7 }
    ensures { result ≡ forbids mask operation }
{
    let bit_0 = (mask >> 7) & 1 == 1;
    let bit_1 = (mask >> 6) & 1 == 1;
    if bit_0 {
        if bit_1 {
            return false;
        }
        return is_operation(operation);
    }
    if operation == operation::FORMAT {
        return true;
    }
    if !bit_1 {
        return false;
    }
    operation::writes(operation)
}

// The unit is read-only, and the operation writes or formats.
fn write_inhibited(read_only: u8, code: u32) -> bool
    ensures { result ≡ inhibits read_only code }
{
    if read_only == 0 {
        return false;
    }
    if operation::writes(code) {
        return true;
    }
    code == operation::FORMAT
}

// A format, and no alternate is unused.
fn none_to_take(d: Device, map: &[u8], code: u32) -> bool
    requires { HasMap d map.now }
    ensures { result ≡ none_to_take d map.now code }
{
    if code != operation::FORMAT {
        return false;
    }
    unused(d.alternates, map).is_none()
}

// What is asked for is within the extent, and the mask, the switch and the alternates allow it.
fn permit(d: Device, u: Record, s: Running, map: &[u8], l: Located, n: usize) -> Result<(), Cause>
    requires { (l.operation < 7) × (n < 65536) × HasMap d map.now }
    ensures { told result ≡ first_of (permission_causes d (state_of (holding u map.now) s) l n) }
{
    let e = s.extent;
    if outside_extent(e, l.displacement, n) {
        return Err(Cause::OutsideExtent);
    }
    if mask_forbids(e.mask, l.operation) {
        return Err(Cause::Forbidden);
    }
    if write_inhibited(u.read_only, l.operation) {
        return Err(Cause::ReadOnly);
    }
    if none_to_take(d, map, l.operation) {
        return Err(Cause::NoAlternate);
    }
    Ok(())
}

// The eight bytes, under the extent and on the unit of this state, with this map.
fn locate_parameters(
    d: Device,
    u: Record,
    s: Running,
    map: &[u8],
    p: &[u8; sizes::LOCATE],
) -> Result<(), Cause>
    requires { HasMap d map.now }
    ensures { told result ≡ first_of (location_causes d (state_of (holding u map.now) s) p.now) }
{
    let l = located_in(p);
    let replication = usize::from(p[1]);
    if modifier_wrong(p[0]) {
        return Err(Cause::BadModifier);
    }
    if !is_operation(l.operation) {
        return Err(Cause::BadOperation);
    }
    if count_wrong(l) {
        return Err(Cause::BadCount);
    }
    if replication_wrong(l, replication) {
        return Err(Cause::BadReplication);
    }
    let n = blocks_processed(l, replication);
    permit(d, u, s, map, l, n)
}

// The parameters that a cause shows: the LOCATE's eight bytes with 39, else zeros.
fn shown_by(cause: Cause, p: &[u8; sizes::LOCATE]) -> [u8; sizes::LOCATE]
    ensures { result ≡ shown (cause_number cause) p.now }
{
    match cause {
        Cause::NoAlternate => *p,
        _ => [0u8; sizes::LOCATE],
    }
}

// The map is as the LOCATE leaves it: another one after a format.
fn leave_map(d: Device, e: Extent, l: Located, map: &mut [u8])
    requires { HasMap d map.old × InExtent e l × OnDevice e 131072 × (l.operation ≡ format → unused_in map.old d.alternates < d.alternates) }
    ensures { map.new ≡ map_after d map.old e l }
{
    if l.operation != operation::FORMAT {
        return;
    }
    let block = e.address(l.displacement) as usize;
    format_block(d.alternates, map, block);
}

// The command by its eight bytes.
fn locate_by(
    d: Device,
    u: Record,
    c: Decoded,
    s: Running,
    map: &mut [u8],
    p: &[u8; sizes::LOCATE],
) -> Ended
    requires { HasMap d map.old × OnDevice s.extent 131072 }
    ensures ended { result ≡ located_by d (holding u map.old) c s p.now }
    ensures left { map.new ≡ map_left d (holding u map.old) s p.now }
{
    if let Err(cause) = locate_parameters(d, u, s, map, p) {
        return refuse_parameters(s, cause, sizes::LOCATE, shown_by(cause, p));
    }
    let l = located_in(p);
    leave_map(d, s.extent, l, map);
    let t = s.locate_set(movement_counted(s.counts), l);
    accept(c, t, sizes::LOCATE, sizes::LOCATE, 0)
}

// Its parameters are taken from main storage now, when it runs.
pub fn locate(
    d: Device,
    u: Record,
    chain: &[u8],
    c: Decoded,
    s: Running,
    main: &[u8],
    map: &mut [u8],
) -> Ended
    requires { Handed chain.now c main.now × (c.command ≡ LOCATE) × HasMap d map.old × (s.defined ≡ true → OnDevice s.extent 131072) }
    ensures { (store : List ℕ) → Performs d chain.now c s result (holding u map.old) main.now store (holding u map.new) main.now store }
{
    if !s.defined {
        return refuse(s, Cause::NoExtent);
    }
    if c.count < sizes::LOCATE {
        return refuse(s, Cause::ShortLocate);
    }
    let mut p = [0u8; sizes::LOCATE];
    fetch(chain, c.area, main, &mut p);
    locate_by(d, u, c, s, map, &p)
}
