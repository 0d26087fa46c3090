// The map of a device's alternates: whether one is used at all (`none_used`), whether the map is right (`map_wrong`, `entries_wrong`), where
// blocks lie (`places`, `alternate_of`), and what a format (`unused`, `format_block`) and a return (`unmap`) make of it. `alternates` and
// `primaries` are how many of them the device has. Nothing here is refused: a caller proves that the map has its bytes, and that what it
// names is there.
#![tactic(auto)]

ghost use Rattle.std.specs.Prelude.{◌≡◌, false, ℕ, ◌+◌, ◌*◌, ◌≤◌, ◌<◌, length, get_or};
ghost use Rattle.numbers.specs.Choice.{◌=?◌, pick};
ghost use Rattle.numbers.specs.Lowest.{any};
ghost use Rattle.model.specs.Alternates.{map_entries, entry_size, map_size, entry_at, with_entry, name_of, lowest_with, alternate_of, unused_in, flagged, formatted, unmapped, bad_entry, bad_map};
ghost use Rattle.alternates.specs.Used.{none_used};
ghost use Rattle.alternates.specs.Placed.{places_from};
ghost use Rattle.alternates.specs.Found.{Found};
ghost use Rattle.alternates.specs.Entries.{Says, number_of};

use model::sizes;

// What an entry says: nothing yet, that its alternate is defective for good, or which block lies there.
#[derive(Clone, Copy)]
enum Entry {
    Unused,
    Defective,
    Block(usize),
}

// The numbers of the entries that name no block.
const UNUSED: usize = 0;

const DEFECTIVE: usize = 0xFFFFFFFF;

impl From<usize> for Entry {
    ghost from_gives = { λ number entry. Says entry number };

    // What a number of the map says.
    fn from(number: usize) -> Entry {
        match number {
            UNUSED => Entry::Unused,
            DEFECTIVE => Entry::Defective,
            name => Entry::Block(name - 1),
        }
    }
}

impl Entry {
    // Its number in the map.
    fn number(self) -> usize
        requires { number_of self < 4294967296 }
        ensures { result ≡ number_of self }
    {
        match self {
            Entry::Unused => UNUSED,
            Entry::Defective => DEFECTIVE,
            Entry::Block(block) => block + 1,
        }
    }
}

// The buckets of entries that were met.
const BUCKETS: usize = 256;

// Each byte of the map is 0. All bytes, a number that is known, are taken together before one test, so that the loop becomes a few vector instructions.
pub fn none_used(map: &[u8]) -> bool
    requires { length map.now ≡ map_size }
    ensures { result ≡ none_used map.now }
{
    map[..sizes::MAP].iter().fold(0, |bits, b| bits | *b) == 0
}

// The number of entry i of the map.
fn number_at(map: &[u8], i: usize) -> usize
    requires { i * entry_size + entry_size ≤ length map.now }
    ensures { (result ≡ entry_at map.now i) × (result < 4294967296) }
{
    numbers::be4(map, i * sizes::ENTRY) as usize
}

// An entry before i is e.
fn named_before(map: &[u8], i: usize, e: usize) -> bool
    requires { (length map.now ≡ map_size) × (i ≤ map_entries) }
    ensures { result ≡ any (λ j. entry_at map.now j =? e) i }
{
    (0..i).any(|j| number_at(map, j) == e)
}

// Entry i, which is e, is wrong. Where none of its bucket was `met`, no entry before it is e.
fn entry_wrong(
    alternates: usize,
    primaries: usize,
    map: &[u8],
    i: usize,
    e: usize,
    met: bool,
) -> bool
    requires entry { (length map.now ≡ map_size) × (i < map_entries) × (e ≡ entry_at map.now i) }
    requires unmet { met ≡ false → any (λ j. entry_at map.now j =? e) i ≡ false }
    ensures { result ≡ bad_entry map.now alternates primaries i }
{
    match Entry::from(e) {
        Entry::Unused => false,
        _ if alternates <= i => true,
        Entry::Defective => false,
        Entry::Block(block) => primaries <= block || met && named_before(map, i, e),
    }
}

// An entry of the map is wrong: cause 8's rule, for a map that is in use.
pub fn entries_wrong(alternates: usize, primaries: usize, map: &[u8]) -> bool
    requires { length map.now ≡ map_size }
    ensures { result ≡ bad_map map.now alternates primaries }
{
    let mut met = [false; BUCKETS];
    for i in 0..sizes::ENTRIES {
        let e = number_at(map, i);
        let bucket = e % BUCKETS;
        if entry_wrong(alternates, primaries, map, i, e, met[bucket]) {
            return true;
        }
        met[bucket] = true;
    }
    false
}

// The map is wrong: cause 8's rule, for a map that is mostly empty.
pub fn map_wrong(alternates: usize, primaries: usize, map: &[u8]) -> bool
    requires { length map.now ≡ map_size }
    ensures { result ≡ bad_map map.now alternates primaries }
{
    if none_used(map) {
        return false;
    }
    entries_wrong(alternates, primaries, map)
}

// Of the blocks from `block` on, the one that e names gets this place.
fn put_place(to: &mut [usize], block: usize, e: usize, place: usize)
    requires { block + length to.old ≤ 131072 }
    ensures { (j : ℕ) → j < length to.old → get_or to.new j 0 ≡ pick (e =? name_of (block + j)) place (get_or to.old j 0) }
{
    if let Entry::Block(named) = Entry::from(e) {
        if block <= named && named - block < to.len() {
            to[named - block] = place;
        }
    }
}

// Each block's own place.
fn own_places(block: usize, to: &mut [usize])
    requires { block + length to.old ≤ 131072 }
    ensures { (j : ℕ) → j < length to.old → get_or to.new j 0 ≡ block + j }
{
    for (j, place) in to.iter_mut().enumerate() {
        *place = block + j;
    }
}

// Where each of the blocks from `block` on lies, as many as `to` has room for. From the highest alternate down, so that the lowest stays.
pub fn places(alternates: usize, primaries: usize, map: &[u8], block: usize, to: &mut [usize])
    requires { (length map.now ≡ map_size) × (alternates ≤ map_entries) × (block + length to.old ≤ primaries) × (primaries ≤ 131072) }
    ensures { to.new ≡ places_from map.now alternates primaries block (length to.old) }
{
    own_places(block, to);
    for i in (0..alternates).rev() {
        put_place(to, block, number_at(map, i), primaries + i);
    }
}

// The lowest of n alternates whose entry is e.
fn lowest_entry(map: &[u8], n: usize, e: Entry) -> Option<usize>
    requires { (length map.now ≡ map_size) × (n ≤ map_entries) × (number_of e < 4294967296) }
    ensures { Found n (lowest_with map.now n (number_of e)) result }
{
    let number = e.number();
    (0..n).find(|i| number_at(map, *i) == number)
}

// The lowest alternate that is unused.
pub fn unused(alternates: usize, map: &[u8]) -> Option<usize>
    requires { (length map.now ≡ map_size) × (alternates ≤ map_entries) }
    ensures { Found alternates (unused_in map.now alternates) result }
{
    lowest_entry(map, alternates, Entry::Unused)
}

// The alternate where the block lies, if it does not lie at its own place.
pub fn alternate_of(alternates: usize, map: &[u8], block: usize) -> Option<usize>
    requires { (length map.now ≡ map_size) × (alternates ≤ map_entries) × (block < 131072) }
    ensures { Found alternates (alternate_of map.now alternates block) result }
{
    lowest_entry(map, alternates, Entry::Block(block))
}

// Entry i is e now.
fn put_entry(map: &mut [u8], i: usize, e: Entry)
    requires { (length map.old ≡ map_size) × (i < map_entries) × (number_of e < 4294967296) }
    ensures { map.new ≡ with_entry map.old i (number_of e) }
{
    let bytes = numbers::bytes4(e.number());
    slices::put_at(map, i * sizes::ENTRY, &bytes, sizes::ENTRY);
}

// The alternate where the block lay, if it had one, is defective for good.
fn flag_old(alternates: usize, map: &mut [u8], block: usize)
    requires { (length map.old ≡ map_size) × (alternates ≤ map_entries) × (block < 131072) }
    ensures { map.new ≡ flagged map.old alternates block }
{
    if let Some(old) = alternate_of(alternates, map, block) {
        put_entry(map, old, Entry::Defective);
    }
}

// The map after a format of the block: it lies at the lowest unused alternate, and its old one is flagged.
pub fn format_block(alternates: usize, map: &mut [u8], block: usize)
    requires { (length map.old ≡ map_size) × (alternates ≤ map_entries) × (unused_in map.old alternates < alternates) × (block < 131072) }
    ensures { map.new ≡ formatted map.old alternates block }
{
    let taken = unused(alternates, map).unwrap();
    flag_old(alternates, map, block);
    put_entry(map, taken, Entry::Block(block));
}

// The map once the alternate of the block is given back: it is unused.
pub fn unmap(alternates: usize, map: &mut [u8], block: usize)
    requires { (length map.old ≡ map_size) × (alternates ≤ map_entries) × (alternate_of map.old alternates block < alternates) × (block < 131072) }
    ensures { map.new ≡ unmapped map.old alternates block }
{
    let freed = alternate_of(alternates, map, block).unwrap();
    put_entry(map, freed, Entry::Unused);
}
