// The unit record, all but its map, and its 34 bytes, which stand before the map's: any 34 bytes are a record (`unpack`, `pack`), and what
// a chain leaves goes to those that it found (`pack_left`) or makes another record (`record_left`). `new_record` is that of a new unit;
// `same` compares two senses or two counts. Nothing is refused.
#![tactic(auto)]

ghost use Rattle.std.specs.Prelude.{◌≡◌, true, ◌+◌, ◌≤◌, length};
ghost use Rattle.slices.specs.Parts.{part};
ghost use Rattle.model.specs.Lent.{map_place, unit_bytes, record_of, new_record};
ghost use Rattle.model.specs.Log.{with_counts};
ghost use Rattle.model.specs.Names.{sense_size};
ghost use Rattle.unit_state.specs.Standing.{unit_left};

use model::kind::Kind;
use model::record::{Counts, Record};
use model::sizes;
use slices::put;
use unit_state::Left;

// Where each field stands in the bytes; sense is first, up to the first count.
const BLOCKS_READ: usize = sizes::SENSE;

const BLOCKS_WRITTEN: usize = 27;

const MOVEMENTS: usize = 30;

const READY: usize = 32;

const READ_ONLY: usize = 33;

// The N bytes from `at` on.
#[tactic(auto, unfolding(slices::specs::Parts::part))]
fn part<const N: usize>(s: &[u8], at: usize) -> [u8; N]
    requires { at + N ≤ length s.now }
    ensures { result ≡ part s.now at N }
{
    s[at..at + N].try_into().unwrap()
}

// The record that these bytes begin with.
#[tactic(auto, unfolding(model::specs::Lent::record_of))]
pub fn unpack(s: &[u8]) -> Record
    requires { map_place ≤ length s.now }
    ensures { result ≡ record_of s.now }
{
    Record {
        sense: part(s, 0),
        blocks_read: part(s, BLOCKS_READ),
        blocks_written: part(s, BLOCKS_WRITTEN),
        movements: part(s, MOVEMENTS),
        ready: s[READY],
        read_only: s[READ_ONLY],
    }
}

// The counts of the record in the 34 bytes of `to` become these.
fn put_counts(k: Counts, to: &mut [u8])
    requires { length to.old ≡ map_place }
    ensures { to.new ≡ unit_bytes (with_counts (record_of to.old) k.blocks_read k.blocks_written k.movements) }
{
    put(to, BLOCKS_READ, &k.blocks_read);
    put(to, BLOCKS_WRITTEN, &k.blocks_written);
    put(to, MOVEMENTS, &k.movements);
}

// The record goes to the 34 bytes of `to`.
pub fn pack(u: Record, to: &mut [u8])
    requires { length to.old ≡ map_place }
    ensures { to.new ≡ unit_bytes u }
{
    let counts = Counts {
        blocks_read: u.blocks_read,
        blocks_written: u.blocks_written,
        movements: u.movements,
    };
    to[READY] = u.ready;
    to[READ_ONLY] = u.read_only;
    put(to, 0, &u.sense);
    put_counts(counts, to);
}

// The sense that is left goes to the 24 bytes of the sense that was found, where it is another.
fn put_sense(l: Left, to: &mut [u8])
    requires { length to.old ≡ sense_size }
    ensures { (u : Record) → u.sense ≡ to.old → to.new ≡ (unit_left u l).sense }
{
    let left = l.sense;
    match l.kind {
        Kind::UnitCheck => {
            let sense = left.bytes();
            to.copy_from_slice(&sense);
        }
        Kind::Accepted | Kind::ProgramCheck => {
            if !l.state.kept {
                to.fill(0);
            }
        }
    }
}

// What a chain leaves goes to the 34 bytes of the record that it found. Only what can have changed is written.
pub fn pack_left(l: Left, to: &mut [u8])
    requires { length to.old ≡ map_place }
    ensures { to.new ≡ unit_bytes (unit_left (record_of to.old) l) }
{
    put_sense(l, &mut to[..BLOCKS_READ]);
    put_counts(l.state.counts, to);
}

// The record that is left, in a chain that found this one.
pub fn record_left(u: Record, l: Left) -> Record
    ensures { result ≡ unit_left u l }
{
    let Counts {
        blocks_read,
        blocks_written,
        movements,
    } = l.state.counts;
    let mut sense = u.sense;
    put_sense(l, &mut sense);
    Record {
        sense,
        blocks_read,
        blocks_written,
        movements,
        ..u
    }
}

// The record of a new unit: no sense, and nothing counted.
#[tactic(auto, unfolding(model::specs::Lent::new_record, slices::specs::Parts::zeros))]
pub fn new_record(ready: u8, read_only: u8) -> Record
    ensures { result ≡ new_record ready read_only }
{
    Record {
        sense: [0; sizes::SENSE],
        blocks_read: [0; 3],
        blocks_written: [0; 3],
        movements: [0; 2],
        ready,
        read_only,
    }
}

// Whether two senses, or two counts, are the same.
pub fn same<const N: usize>(a: [u8; N], b: [u8; N]) -> bool
    ensures { (result ≡ true → a ≡ b) × (a ≡ b → result ≡ true) }
{
    a == b
}
