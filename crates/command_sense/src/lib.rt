// SENSE, SENSE TYPE and READ AND RESET BUFFERED LOG: the commands that send bytes of the unit itself to the data area.
#![tactic(auto)]

ghost use Rattle.std.specs.Prelude.{◌≡◌, List, ℕ, min, length, take};
ghost use Rattle.model.specs.declared.device.Device.{Device};
ghost use Rattle.model.specs.declared.record.UnitRecord.{UnitRecord};
ghost use Rattle.model.specs.Names.{SENSE, SENSE_TYPE, READ_LOG};
ghost use Rattle.model.specs.Pieces.{delivered};
ghost use Rattle.model.specs.Decoded.{command_of};
ghost use Rattle.unit_state.specs.Standing.{holding, Handed};
ghost use Rattle.endings.specs.Ending.{Performs};
ghost use Rattle.command_sense.specs.Sent.{sent_end};

use buffered_log::{Log, none_counted};
use endings::{Ended, accept};
use model::decoded::Decoded;
use model::record::{Counts, Record};
use model::state::Before;
use storage::deliver;
use unit_state::{Running, sense_now};

// A command that can move all of these bytes: as many as its count asks for go to its data area. It leaves these counts, and no sense.
fn send(chain: &[u8], c: Decoded, s: Running, main: &mut [u8], bytes: &[u8], k: Counts) -> Ended
    requires { Handed chain.now c main.old }
    ensures sent { main.new ≡ delivered (command_of chain.now c) main.old (take (min c.count (length bytes.now)) bytes.now) }
    ensures end { result ≡ sent_end c s (length bytes.now) k }
{
    let n = c.count.min(bytes.len());
    deliver(chain, c.area, main, &bytes[..n]);
    accept(c, s.after(k, Before::Other), n, bytes.len(), 0)
}

pub fn sense(u: Record, chain: &[u8], c: Decoded, s: Running, main: &mut [u8]) -> Ended
    requires { Handed chain.now c main.old × (c.command ≡ SENSE) }
    ensures { (map : List ℕ) (d : Device) (store : List ℕ) → Performs d chain.now c s result (holding u map) main.old store (holding u map) main.new store }
{
    let found = u.sense;
    let bytes = sense_now(found, s.kept);
    send(chain, c, s, main, &bytes, s.counts)
}

// What this unit is.
const TYPE: [u8; 7] = [0xFF, 0x00, 0x97, 0x01, 0x05, 0x12, 0x01];

pub fn sense_type(chain: &[u8], c: Decoded, s: Running, main: &mut [u8]) -> Ended
    requires { Handed chain.now c main.old × (c.command ≡ SENSE_TYPE) }
    ensures { (u : UnitRecord) (d : Device) (store : List ℕ) → Performs d chain.now c s result u main.old store u main.new store }
{
    let bytes = TYPE;
    send(chain, c, s, main, &bytes, s.counts)
}

pub fn read_log(chain: &[u8], c: Decoded, s: Running, main: &mut [u8]) -> Ended
    requires { Handed chain.now c main.old × (c.command ≡ READ_LOG) }
    ensures { (u : UnitRecord) (d : Device) (store : List ℕ) → Performs d chain.now c s result u main.old store u main.new store }
{
    let log = Log::of(s.counts);
    let bytes = log.0;
    send(chain, c, s, main, &bytes, none_counted())
}
