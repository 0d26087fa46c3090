// How bytes are numbers: big-endian, as the unit's parameters and answers hold them.
// The read (`be`) is exact; the write (`be_bytes`) takes the low bytes, so it refuses no number. Both are for any number of bytes that
// a usize holds; `be2` to `be4` and `bytes2` to `bytes4` are theirs at 2, 3 and 4 bytes.
#![tactic(auto)]

ghost use Rattle.std.specs.Prelude.{◌≡◌, ◌+◌, ◌^◌, ◌≤◌, ◌<◌, length};
ghost use Rattle.numbers.specs.Big.{be, be_bytes, be2, be3, be4, bytes2, bytes3, bytes4};

// The number in the N bytes from `at` on.
pub fn be<const N: usize>(s: &[u8], at: usize) -> usize
    requires narrow { N ≤ 8 }
    requires there { at + N ≤ length s.now }
    ensures value { result ≡ be N s.now at }
    ensures fits { result < 256 ^ N }
{
    let mut n = 0;
    for b in &s[at..at + N] {
        n = n * 256 + usize::from(*b);
    }
    n
}

// The low N bytes of a number.
pub fn be_bytes<const N: usize>(n: usize) -> [u8; N]
    requires { N ≤ 8 }
    ensures { result ≡ be_bytes N n }
{
    *n.to_be_bytes().last_chunk().unwrap()
}

// The number in the 2 bytes from `at` on.
pub fn be2(s: &[u8], at: usize) -> usize
    requires { at + 2 ≤ length s.now }
    ensures { (result ≡ be2 s.now at) × (result < 65536) }
{
    be::<2>(s, at)
}

// The number in the 3 bytes from `at` on.
pub fn be3(s: &[u8], at: usize) -> usize
    requires { at + 3 ≤ length s.now }
    ensures { (result ≡ be3 s.now at) × (result < 16777216) }
{
    be::<3>(s, at)
}

// The number in the 4 bytes from `at` on.
pub fn be4(s: &[u8], at: usize) -> u32
    requires { at + 4 ≤ length s.now }
    ensures { result ≡ be4 s.now at }
{
    be::<4>(s, at) as u32
}

// The low 16 bits of a number, as 2 bytes.
pub fn bytes2(n: usize) -> [u8; 2]
    ensures { result ≡ bytes2 n }
{
    be_bytes::<2>(n)
}

// The low 24 bits of a number, as 3 bytes.
pub fn bytes3(n: usize) -> [u8; 3]
    ensures { result ≡ bytes3 n }
{
    be_bytes::<3>(n)
}

// The low 32 bits of a number, as 4 bytes.
pub fn bytes4(n: usize) -> [u8; 4]
    ensures { result ≡ bytes4 n }
{
    be_bytes::<4>(n)
}
