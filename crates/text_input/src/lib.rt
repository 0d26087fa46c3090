// The input, line by line: whether it is right (`wrong_line`), and what a right one says (`settings_in`, `storage_in`, `chain_in`).
// A line counts with the line feed that ends it.
#![tactic(auto)]

ghost use Rattle.std.specs.Prelude.{◌≡◌, [], ◌+◌, ◌≤◌, ◌<◌, length, get_or, Bool, true, false, MatchOption};
ghost use Rattle.text_digits.specs.Digits.{six_digits};
ghost use Rattle.text_input.specs.Input.{lines, most_storage, most_chain, exercise_in};
ghost use Rattle.text_input.specs.Input.{keyed, value, number_of, bytes_of, hex_line, right_line, wrong_line};
ghost use Rattle.text_input.specs.Reads.{ends_line, format, Tells, ReadTo};

use model::sizes;
use text_digits::{decode, is_decimal, is_hex};

const LINE_FEED: u8 = b'\n';

// The most blocks of a device, and the most bytes of main storage.
pub const MOST_BLOCKS: usize = 64;

pub const MOST_STORAGE: usize = 1024;

// The numbers of the first ccw line and of the last that may be, and the bytes of the longest chain.
const FIRST_CCW: usize = 5;

const LAST_CCW: usize = 36;

pub const MOST_CHAIN: usize = (LAST_CCW + 1 - FIRST_CCW) * sizes::CCW;

// What the lines before storage say: ready and readonly are 0 or 1, as a unit's record has them.
#[derive(Clone, Copy)]
pub struct Settings {
    pub blocks: usize,
    pub ready: u8,
    pub readonly: u8,
}

// A line's key, with its equals sign, and the least and the most that its value may be: a number, or how many bytes.
#[derive(Clone, Copy)]
struct Field {
    key: &'static [u8],
    least: usize,
    most: usize,
}

const BLOCKS: Field = Field {
    key: b"blocks=",
    least: 1,
    most: MOST_BLOCKS,
};

const READY: Field = Field {
    key: b"ready=",
    least: 0,
    most: 1,
};

const READONLY: Field = Field {
    key: b"readonly=",
    least: 0,
    most: 1,
};

const STORAGE: Field = Field {
    key: b"storage=",
    least: 0,
    most: MOST_STORAGE,
};

const CCW: Field = Field {
    key: b"ccw=",
    least: sizes::CCW,
    most: sizes::CCW,
};

impl Field {
    // The value in a line that is the key, a value and a line feed.
    fn value<'a>(&self, line: &'a [u8]) -> Option<&'a [u8]>
        ensures { MatchOption result (keyed self.now.key.now line.now ≡ false)
            (λ v. (keyed self.now.key.now line.now ≡ true) × (v.now ≡ value self.now.key.now line.now)) }
    {
        line.strip_suffix(&[LINE_FEED])?.strip_prefix(self.key)
    }

    // The number in a line.
    fn number(&self, line: &[u8]) -> Option<usize>
        requires { (self.now.least ≤ self.now.most) × (self.now.most < six_digits) }
        ensures { Tells (self.now.most + 1) result (number_of (format self.now) line.now) }
    {
        let value = self.value(line)?;
        (self.least..self.most + 1).find(|n| is_decimal(value, *n))
    }

    // Whether a line has bytes in hexadecimal, as many as may be.
    fn has_bytes(&self, line: &[u8]) -> bool
        ensures { result ≡ hex_line (format self.now) line.now }
    {
        match self.value(line) {
            None => false,
            Some(value) => {
                let n = value.len() / 2;
                self.least <= n && n <= self.most && is_hex(value)
            }
        }
    }

    // The bytes in a right line go to the front of `to`, and their number is returned.
    fn read(&self, line: &[u8], to: &mut [u8]) -> usize
        requires right { hex_line (format self.now) line.now ≡ true }
        requires room { self.now.most ≤ length to.old }
        ensures { ReadTo to.old (bytes_of (format self.now) line.now) result to.new }
    {
        let value = self.value(line).unwrap();
        let n = value.len() / 2;
        decode(value, &mut to[..n]);
        n
    }
}

// Whether line n is what it must be.
fn right_line(n: usize, line: &[u8]) -> bool
    ensures { result ≡ right_line n line.now }
{
    match n {
        1 => BLOCKS.number(line).is_some(),
        2 => READY.number(line).is_some(),
        3 => READONLY.number(line).is_some(),
        4 => STORAGE.has_bytes(line),
        _ => n <= LAST_CCW && CCW.has_bytes(line),
    }
}

// Whether a character ends a line.
fn is_line_feed(c: &u8) -> bool
    ensures { result ≡ ends_line c.now }
{
    *c == LINE_FEED
}

// The number of the first wrong or missing line.
pub fn wrong_line(input: &[u8]) -> Option<usize>
    ensures { Tells 0 result (wrong_line input.now) }
{
    let mut n = 1;
    for line in input.split_inclusive(is_line_feed) {
        if !right_line(n, line) {
            return Some(n);
        }
        n += 1;
    }
    if n > FIRST_CCW { None } else { Some(n) }
}

// The line after the first n; an empty one where there are no more.
fn line_at(input: &[u8], n: usize) -> &[u8]
    ensures { result.now ≡ get_or (lines input.now) n [] }
{
    input.split_inclusive(is_line_feed).nth(n).unwrap_or(&[])
}

// The number in the line after the first n. A wrong line has one past the most, since `settings_in` says what `exercise_in` does of every input.
fn number_at(input: &[u8], n: usize, field: Field) -> usize
    requires { (field.least ≤ field.most) × (field.most < six_digits) }
    ensures { result ≡ number_of (format field) (get_or (lines input.now) n []) }
{
    field.number(line_at(input, n)).unwrap_or(field.most + 1)
}

// What the first three lines say.
pub fn settings_in(input: &[u8]) -> Settings
    ensures { result ≡ (exercise_in (lines input.now)).settings }
{
    Settings {
        blocks: number_at(input, 0, BLOCKS),
        ready: number_at(input, 1, READY) as u8,
        readonly: number_at(input, 2, READONLY) as u8,
    }
}

// Main storage goes to the front of `to`, and its length is returned.
pub fn storage_in(input: &[u8], to: &mut [u8]) -> usize
    requires { (wrong_line input.now ≡ 0) × (length to.old ≡ most_storage) }
    ensures { ReadTo to.old (exercise_in (lines input.now)).storage result to.new }
{
    STORAGE.read(line_at(input, 3), to)
}

// The chain goes to the front of `to`, and its length is returned.
pub fn chain_in(input: &[u8], to: &mut [u8]) -> usize
    requires { (wrong_line input.now ≡ 0) × (length to.old ≡ most_chain) }
    ensures { ReadTo to.old (exercise_in (lines input.now)).chain result to.new }
{
    let mut end = 0;
    for line in input.split_inclusive(is_line_feed).skip(FIRST_CCW - 1) {
        end += CCW.read(line, &mut to[end..]);
    }
    end
}
