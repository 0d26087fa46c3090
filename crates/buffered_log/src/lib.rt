// The counts of the unit record, and the log that shows them: `Log::of` is what READ AND RESET BUFFERED LOG sends.
// Nothing here is refused; a count that is full stays full.
#![tactic(auto)]

ghost use Rattle.std.specs.Prelude.{◌≡◌, ◌<◌, length};
ghost use Rattle.model.specs.Names.{sense_size};
ghost use Rattle.model.specs.declared.record.Record.{Record};
ghost use Rattle.model.specs.Log.{added2, added3, log_of};
ghost use Rattle.buffered_log.specs.Counts.{added, counted, with_read, with_written, with_movement, no_counts};

use model::record::Counts;
use model::sizes;
use numbers::{be, be_bytes};
use slices::put;

// A count of N bytes with n added; it stops at the largest number that they hold.
#[tactic(auto, using(crate::proofs::Counting::powers_fit))]
fn added<const N: usize>(count: &[u8; N], n: usize) -> [u8; N]
    requires { (N < 4) × (n < 4294967296) }
    ensures { result ≡ added N count.now n }
{
    let largest = 256usize.pow(N as u32) - 1;
    be_bytes((be::<N>(count, 0) + n).min(largest))
}

// n blocks were read.
#[tactic(auto, unfolding(model::specs::Log::added3))]
pub fn read_counted(n: usize, k: Counts) -> Counts
    requires { n < 4294967296 }
    ensures { result ≡ with_read n k }
{
    Counts {
        blocks_read: added(&k.blocks_read, n),
        ..k
    }
}

// n blocks were written with check.
#[tactic(auto, unfolding(model::specs::Log::added3))]
pub fn written_counted(n: usize, k: Counts) -> Counts
    requires { n < 4294967296 }
    ensures { result ≡ with_written n k }
{
    Counts {
        blocks_written: added(&k.blocks_written, n),
        ..k
    }
}

// The access mechanism moved once.
#[tactic(auto, unfolding(model::specs::Log::added2))]
pub fn movement_counted(k: Counts) -> Counts
    ensures { result ≡ with_movement k }
{
    Counts {
        movements: added(&k.movements, 1),
        ..k
    }
}

// The counts once they were sent: they begin again.
#[tactic(auto, unfolding(slices::specs::Parts::zeros))]
pub fn none_counted() -> Counts
    ensures { result ≡ no_counts }
{
    Counts {
        blocks_read: [0; 3],
        blocks_written: [0; 3],
        movements: [0; 2],
    }
}

#[derive(Clone, Copy)]
pub struct Log(pub [u8; sizes::SENSE]);

// Where each thing stands in a log.
impl Log {
    pub const ENVIRONMENTAL: usize = 2;

    pub const FORMAT_MESSAGE: usize = 7;

    pub const BLOCKS_READ: usize = 8;

    pub const BLOCKS_WRITTEN: usize = 15;

    pub const MOVEMENTS: usize = 19;

    // The log of these counts.
    pub fn of(k: Counts) -> Log
        ensures shows { (u : Record) → result.0 ≡ log_of (counted u k) }
        ensures long { length result.0 ≡ sense_size }
    {
        let mut log = [0; sizes::SENSE];
        log[Log::ENVIRONMENTAL] = 0x10; // bit 3: environmental data present
        log[Log::FORMAT_MESSAGE] = 0x68; // format 6, message 8
        put(&mut log, Log::BLOCKS_READ, &k.blocks_read);
        put(&mut log, Log::BLOCKS_WRITTEN, &k.blocks_written);
        put(&mut log, Log::MOVEMENTS, &k.movements);
        Log(log)
    }
}
