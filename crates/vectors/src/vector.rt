// A table of vectors, taken apart. What a table is too short for is empty.
ghost use Rattle.std.specs.Prelude.{◌<◌, ◌≤◌, length};
ghost use Rattle.std.specs.Iterator.{at_most};

use model::sizes;

// What a vector's first two digits say.
#[derive(Clone, Copy)]
pub struct Setting {
    pub ready: bool,
    pub read_only: bool,
    // Unit, main storage and store are as the vector before left them.
    pub kept: bool,
    pub nearly_full: bool,
    // What "yes" is in the record.
    pub yes: u8,
    // Whether a word about the device comes next, and how long the store is where none does.
    own_device: bool,
    store_len: usize,
}

impl From<u8> for Setting {
    fn from(bits: u8) -> Setting {
        Setting {
            ready: bits & 0x01 == 0,
            read_only: bits & 0x02 != 0,
            kept: bits & 0x04 != 0,
            nearly_full: bits & 0x08 != 0,
            yes: if bits & 0x40 == 0 { 1 } else { 0x80 },
            own_device: bits & 0x80 != 0,
            store_len: match bits & 0x30 {
                0x00 => 8 * sizes::BLOCK,
                0x10 => sizes::BLOCK,
                0x20 => 0,
                _ => sizes::BLOCK + 1,
            },
        }
    }
}

// A vector's device, and the words of its map that the vector gives, which go from the word `map_from` on.
#[derive(Clone, Copy)]
pub struct Device<'a> {
    pub alternates: u32,
    pub store_len: usize,
    pub map_from: usize,
    pub map: &'a [u64],
}

// A vector: how many bytes are lent of each buffer, and the words of its parts.
#[derive(Clone, Copy)]
pub struct Vector<'a> {
    pub setting: Setting,
    pub device: Device<'a>,
    pub chain_len: usize,
    pub answers_len: usize,
    pub storage_len: usize,
    pub chain: &'a [u64],
    pub storage: &'a [u64],
    pub places: &'a [u64],
}

// The number that bytes `at` and `at + 1` of a word are.
fn two(word: [u8; 8], at: usize) -> usize
    requires { at < 7 }
    ensures { result < 65536 }
{
    usize::from(u16::from_be_bytes([word[at], word[at + 1]]))
}

// The vectors of what is left of a table, one after the other.
#[derive(Drop)]
pub struct Vectors<'a>(pub &'a [u64]);

impl<'a> Vectors<'a> {
    // The next n words, or as many as are left.
    fn words(&mut self, n: usize) -> &'a [u64]
        ensures { length self.new.0.now ≤ length self.old.0.now }
    {
        let (words, rest) = self.0.split_at(n.min(self.0.len()));
        self.0 = rest;
        words
    }

    // The device of a vector with this setting.
    fn device(&mut self, setting: Setting) -> Device<'a>
        ensures { length self.new.0.now ≤ length self.old.0.now }
    {
        if setting.own_device
            && let [about] = self.words(1)
        {
            let about = about.to_be_bytes();
            return Device {
                alternates: u32::from_be_bytes([about[0], about[1], about[2], about[3]]),
                store_len: two(about, 4) * sizes::BLOCK,
                map_from: usize::from(about[6]),
                map: self.words(usize::from(about[7])),
            };
        }
        Device {
            alternates: 0,
            store_len: setting.store_len,
            map_from: 0,
            map: &[],
        }
    }
}

impl<'a> Iterator for Vectors<'a> {
    type Item = Vector<'a>;

    ghost remaining = { λ s. at_most (length s.0.now) };

    // The parts stand in the table in the order in which they are taken here.
    fn next(&mut self) -> Option<Vector<'a>> {
        let head = self.0.split_off_first()?.to_be_bytes();
        let setting = Setting::from(head[0]);
        let chain_len = two(head, 1);
        Some(Vector {
            setting,
            device: self.device(setting),
            chain_len,
            answers_len: two(head, 3),
            storage_len: two(head, 5),
            chain: self.words(chain_len.div_ceil(sizes::CCW)),
            storage: self.words(usize::from(head[7] >> 4)),
            places: self.words(usize::from(head[7] & 0xF)),
        })
    }
}

// What may be shown of what a call left.
#[derive(Clone, Copy)]
pub enum What {
    Answers,
    Store,
    Counts,
    Storage,
    Sense,
    Map,
}

// A place that a vector asks to be shown: n bytes from `from` on.
#[derive(Clone, Copy)]
pub struct Place {
    pub what: What,
    pub from: usize,
    pub n: usize,
}

impl From<u64> for Place {
    fn from(word: u64) -> Place {
        let bytes = word.to_be_bytes();
        Place {
            what: match word >> 32 {
                0xA => What::Answers,
                0xB => What::Store,
                0xC => What::Counts,
                0xD => What::Storage,
                0xF => What::Map,
                // E, all sense.
                _ => What::Sense,
            },
            from: two(bytes, 4),
            n: two(bytes, 6),
        }
    }
}
