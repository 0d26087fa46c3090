// One vector after the other: its buffers are laid out, its chain is run, and its line is printed.
// The way in is `group`.
use crate::show::{Answer, Counts, Hex};
use crate::vector::{Place, Setting, Vector, Vectors, What};
use model::record::{Record, UnitRecord};
use model::sizes;
use record::same;
use std::io::{self, Print};

// The longest that each buffer is: a chain, and its answers, of one CCW more than a chain may have; a store of
// 66 blocks, though most vectors have one of 8.
const CHAIN: usize = sizes::CHAIN_LIMIT + sizes::CCW;

const STORAGE: usize = 1088;

const STORE: usize = 66 * sizes::BLOCK;

// What every byte of main storage and of the answers is before the run, where nothing else is said.
const STORAGE_BYTE: u8 = 0xFF;

const ANSWER_BYTE: u8 = 0xAA;

// The unit, and what is lent to it.
#[derive(Drop)]
struct Bench {
    unit: UnitRecord,
    chain: [u8; CHAIN],
    storage: [u8; STORAGE],
    store: [u8; STORE],
    answers: [u8; CHAIN],
}

// A new unit as the setting has it, with no entry of its map in use.
fn new_unit(setting: Setting) -> UnitRecord {
    let ready = if setting.ready { setting.yes } else { 0 };
    let read_only = if setting.read_only { setting.yes } else { 0 };
    let mut unit = record::new_record(ready, read_only);
    if setting.nearly_full {
        unit.blocks_read = [255, 255, 254];
        unit.blocks_written = [255, 255, 254];
        unit.movements = [255, 254];
    }
    UnitRecord {
        unit,
        map: [0; sizes::MAP],
    }
}

// Puts the words into `to`, from its word `from` on, as far as it reaches.
fn put(words: &[u64], to: &mut [u8], from: usize) {
    let (places, _) = to.as_chunks_mut::<8>();
    for (place, word) in places.iter_mut().skip(from).zip(words) {
        *place = word.to_be_bytes();
    }
}

// The n bytes from `from` on, or those that there are.
fn part(bytes: &[u8], from: usize, n: usize) -> &[u8] {
    let rest = &bytes[from.min(bytes.len())..];
    &rest[..n.min(rest.len())]
}

// The first n bytes, or those that there are, to be written.
fn first(bytes: &mut [u8], n: usize) -> &mut [u8] {
    let n = n.min(bytes.len());
    &mut bytes[..n]
}

// Whether a run left sense and the count of blocks read as they were.
fn is_kept(before: &Record, after: &Record) -> bool {
    same(before.sense, after.sense) && same(before.blocks_read, after.blocks_read)
}

impl Bench {
    fn new() -> Bench {
        Bench {
            unit: new_unit(Setting::from(0)),
            chain: [0; CHAIN],
            storage: [0; STORAGE],
            store: [0; STORE],
            answers: [0; CHAIN],
        }
    }

    // A new unit, main storage and store. Block n is filled with byte n.
    fn renew(&mut self, setting: Setting) {
        self.unit = new_unit(setting);
        self.storage.fill(STORAGE_BYTE);
        for (n, block) in (0u8..).zip(self.store.chunks_mut(sizes::BLOCK)) {
            block.fill(n);
        }
    }

    // Lays out the unit and the buffers as the vector has them. Chain bytes past its own are not lent.
    fn lay(&mut self, vector: &Vector) {
        if !vector.setting.kept {
            self.renew(vector.setting);
        }
        let device = vector.device;
        put(device.map, &mut self.unit.map, device.map_from);
        put(vector.storage, &mut self.storage, 0);
        put(vector.chain, &mut self.chain, 0);
        self.answers.fill(ANSWER_BYTE);
    }

    // Lends the buffers, each as long as the vector has it. The result is 256 times the cause plus the commands
    // reached.
    fn run(&mut self, vector: &Vector) -> u32 {
        in_place::run(
            &mut self.unit,
            part(&self.chain, 0, vector.chain_len),
            first(&mut self.storage, vector.storage_len),
            first(&mut self.store, vector.device.store_len),
            vector.device.alternates,
            first(&mut self.answers, vector.answers_len),
        )
    }

    // The call's cause, the commands reached with their answers, and sense bytes 0, 1 and 7.
    fn print_call<P: Print>(&self, out: &P, cause: u32, reached: usize) -> io::Result<()> {
        print!(out; " cause={cause} reached={reached}")?;
        let (answers, _) = self.answers.as_chunks::<{ sizes::ANSWER }>();
        for answer in answers.iter().take(reached) {
            print!(out; " {}", Answer(answer))?;
        }
        let sense = self.unit.unit.sense;
        print!(out; " sense={}", Hex(&[sense[0], sense[1], sense[7]]))
    }

    // The place, by its name and number, and what stands there.
    fn print_place<P: Print>(&self, out: &P, place: Place) -> io::Result<()> {
        let (name, bytes) = match place.what {
            What::Counts => return print!(out; " counts={}", Counts(&self.unit.unit)),
            What::Sense => return print!(out; " all={}", Hex(&self.unit.unit.sense)),
            What::Answers => ("answers", &self.answers[..]),
            What::Store => ("store", &self.store[..]),
            What::Storage => ("main", &self.storage[..]),
            What::Map => ("map", &self.unit.map[..]),
        };
        let from = place.from;
        let shown = Hex(part(bytes, from, place.n));
        print!(out; " {name}[{from:04X}]={shown}")
    }

    // Runs one vector, and prints its line but for its number.
    fn play<P: Print>(&mut self, out: &P, vector: &Vector) -> io::Result<()> {
        self.lay(vector);
        let before = self.unit.unit;
        let code = self.run(vector);
        let cause = code / 256;
        self.print_call(out, cause, (code % 256) as usize)?;
        if cause != 0 {
            let kept = is_kept(&before, &self.unit.unit);
            print!(out; " record={}", if kept { "kept" } else { "changed" })?;
        }
        for word in vector.places {
            self.print_place(out, Place::from(*word))?;
        }
        println!(out)
    }
}

// A group of vectors: its heading, and their lines.
pub fn group<P: Print>(out: &P, group: u64, title: &str, table: &[u64]) -> io::Result<()> {
    println!(out; "{group}. {title}")?;
    let mut bench = Bench::new();
    for (number, vector) in (1u64..).zip(Vectors(table)) {
        print!(out; "{group}.{number}")?;
        bench.play(out, &vector)?;
    }
    Ok(())
}
