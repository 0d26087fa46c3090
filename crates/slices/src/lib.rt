// How bytes move between slices, and within one: copied, put at a place. Nothing here is refused: a caller proves that what it names is there.
#![tactic(auto)]

ghost use Rattle.std.specs.Prelude.{◌≡◌, ◌+◌, ◌≤◌, length, take};
ghost use Rattle.slices.specs.Parts.{part, put, most_copied};

// The most that one copy moves: a count has 16 bits.
const HELD: usize = 65536;

// The first n bytes of `from` go to the front of `to`, by way of a local. LLVM is not told that `from` and `to` lie apart, and makes a
// loop of `copy_from_slice` from one to the other; but it sees that a local lies apart from both: either copy is a memcpy then, the two
// are one memmove, and nothing is held when the code runs.
pub fn copy(from: &[u8], to: &mut [u8], n: usize)
    requires { (n ≤ length from.now) × (n ≤ length to.old) × (n ≤ most_copied) }
    ensures { to.new ≡ put to.old 0 (take n from.now) }
{
    let mut held = [0u8; HELD];
    held[..n].copy_from_slice(&from[..n]);
    to[..n].copy_from_slice(&held[..n]);
}

// The n bytes from `from` on go to `at`, in one slice, by way of a local as in `copy` (of std's `copy_within` LLVM makes a loop).
pub fn copy_within(l: &mut [u8], from: usize, at: usize, n: usize)
    requires { (from + n ≤ length l.old) × (at + n ≤ length l.old) × (n ≤ most_copied) }
    ensures { l.new ≡ put l.old at (part l.old from n) }
{
    let mut held = [0u8; HELD];
    held[..n].copy_from_slice(&l[from..from + n]);
    l[at..at + n].copy_from_slice(&held[..n]);
}

// These bytes go to `to`, from `at` on.
pub fn put(to: &mut [u8], at: usize, bytes: &[u8])
    requires { (at + length bytes.now ≤ length to.old) × (length bytes.now ≤ most_copied) }
    ensures { to.new ≡ put to.old at bytes.now }
{
    copy(bytes, &mut to[at..], bytes.len());
}

// The first n bytes of `from` go to `to`, from `at` on.
pub fn put_at(to: &mut [u8], at: usize, from: &[u8], n: usize)
    requires { (at + n ≤ length to.old) × (n ≤ length from.now) × (n ≤ most_copied) }
    ensures { to.new ≡ put to.old at (take n from.now) }
{
    put(to, at, &from[..n]);
}
