// Numbers and bytes as text, added to an output (`Output`) and read from an input (`is_decimal`, `is_hex`, `decode`).
// What does not fit an output is left out: nothing is refused, and a caller need not know how long a text is.
#![tactic(auto)]

ghost use Rattle.std.specs.Prelude.{◌≡◌, ◌+◌, ◌%◌, ◌<◌, length, [], ◌∷◌};
ghost use Rattle.text_digits.specs.Digits.{digit, decimal, six_digits, hex, value_of, is_hex, all_digits, bytes_in, same};
ghost use Rattle.text_digits.specs.Output.{Wrote};

// The character of a digit.
fn digit(n: u8) -> u8
    requires { n < 16 }
    ensures { result ≡ digit n }
{
    if n < 10 { b'0' + n } else { b'A' - 10 + n }
}

// The digit that a character stands for.
fn value_of(c: u8) -> u8
    ensures value { result ≡ value_of c }
    ensures below { result < 16 }
{
    if c < b'A' { c % 16 } else { (c % 16 + 9) % 16 }
}

// The largest number of one digit.
const ONE_DIGIT: usize = 9;

// Bytes that were lent for text, and the place in them where the next text goes. It is no `fmt::Write`: each line that is written so answers
// with a `Result`, and here none is ever an error.
#[derive(Drop)]
pub struct Output<'a> {
    pub bytes: &'a mut [u8],
    pub at: usize,
}

impl<'a> Output<'a> {
    // The first text goes to the front.
    pub fn new(bytes: &'a mut [u8]) -> Output<'a>
        ensures same_reference { result.bytes.ghost_name ≡ bytes.entry.ghost_name }
        ensures same_bytes { result.bytes.now ≡ bytes.old }
        ensures front { result.at ≡ 0 }
    {
        Output { bytes, at: 0 }
    }

    // Adds a text, as far as it fits.
    pub fn text(&mut self, text: &[u8])
        ensures { Wrote self.old text.now self.new }
    {
        if self.at < self.bytes.len() {
            let n = text.len().min(self.bytes.len() - self.at);
            self.bytes[self.at..self.at + n].copy_from_slice(&text[..n]);
            self.at += n;
        }
    }

    // Adds a number in decimal: the digits before the last, where there are some, and the last.
    pub fn decimal(&mut self, n: usize)
        ensures { Wrote self.old (decimal n) self.new }
    {
        if n > ONE_DIGIT {
            self.decimal(n / 10);
        }
        self.text(&[digit((n % 10) as u8)]);
    }

    // Adds bytes in hexadecimal.
    pub fn hex(&mut self, bytes: &[u8])
        ensures { Wrote self.old (hex bytes.now) self.new }
    {
        for b in bytes {
            self.text(&[digit(*b / 16), digit(*b % 16)]);
        }
    }
}

// The most digits of a number that is read.
const DIGITS: usize = 5;

// Whether a text is a number in decimal, as it would be printed. `parse` would take leading zeros and a plus sign too.
pub fn is_decimal(text: &[u8], n: usize) -> bool
    requires { n < six_digits }
    ensures { result ≡ same text.now (decimal n) }
{
    let mut digits = [0u8; DIGITS];
    let mut printed = Output::new(&mut digits);
    printed.decimal(n);
    let Output { bytes, at } = printed;
    text == &bytes[..at]
}

// Whether every character is a digit.
fn all_digits(text: &[u8]) -> bool
    ensures { result ≡ all_digits text.now }
{
    text.iter().all(|c| digit(value_of(*c)) == *c)
}

// Whether a text is some bytes in hexadecimal.
pub fn is_hex(text: &[u8]) -> bool
    ensures { result ≡ is_hex text.now }
{
    text.len() % 2 == 0 && all_digits(text)
}

// The bytes that a text in hexadecimal stands for go to `to`.
pub fn decode(text: &[u8], to: &mut [u8])
    requires { length text.now ≡ length to.old + length to.old }
    ensures { to.new ≡ bytes_in text.now }
{
    // Not a zip with `chunks_exact(2)`, which was tried: of what a zip lent a proof knows nothing but the length.
    for (i, byte) in to.iter_mut().enumerate() {
        *byte = value_of(text[2 * i]) * 16 + value_of(text[2 * i + 1]);
    }
}
