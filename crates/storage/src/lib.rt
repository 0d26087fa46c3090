// A command's data area in main storage: `fetch` reads from its front, `deliver` writes to its front, and no command does either by
// itself; `skip` tells what is left of it. Nothing here is refused: the channel saw to it that the area is there. Main storage is lent to be
// read by the one and to be written by the other, so the two are not one function.
#![tactic(auto)]

ghost use Rattle.std.specs.Prelude.{◌≡◌, ◌+◌, ◌≤◌, ◌<◌, length, take};
ghost use Rattle.model.specs.Pieces.{counts, bytes_in, scattered};
ghost use Rattle.model.specs.Decoded.{area_of, Stands};
ghost use Rattle.model.specs.Safe.{InArea};
ghost use Rattle.storage.specs.Area.{Rest};

use channel::ccw::next_piece;
use model::ccw::Piece;
use model::decoded::Area;
use slices::put_at;

// As `fetch`, of more bytes than the first piece has: piece by piece. `done` counts what is fetched: with `to` cut by `split_at_mut` at each
// piece (tried), the proof does not know what `to` holds at the end.
fn gather(chain: &[u8], a: Area, main: &[u8], to: &mut [u8])
    requires { InArea chain.now a main.now (length to.old) }
    ensures { to.new ≡ take (length to.old) (bytes_in (area_of chain.now a) main.now) }
{
    let mut from = a;
    let mut done = 0;
    while from.piece.count < to.len() - done {
        let k = from.piece.count;
        let at = from.piece.address;
        put_at(to, done, &main[at..], k);
        done += k;
        from = next_piece(chain, from);
    }
    let last = to.len() - done;
    let at = from.piece.address;
    put_at(to, done, &main[at..], last);
}

// The first bytes of the area fill `to`.
pub fn fetch(chain: &[u8], a: Area, main: &[u8], to: &mut [u8])
    requires { InArea chain.now a main.now (length to.old) }
    ensures { to.new ≡ take (length to.old) (bytes_in (area_of chain.now a) main.now) }
{
    let n = to.len();
    if a.piece.count < n {
        gather(chain, a, main, to);
        return;
    }
    let at = a.piece.address;
    slices::copy(&main[at..], to, n);
}

// As `deliver`, of more bytes than the first piece has: piece by piece.
fn scatter(chain: &[u8], a: Area, main: &mut [u8], bytes: &[u8])
    requires { InArea chain.now a main.old (length bytes.now) }
    ensures { main.new ≡ scattered (area_of chain.now a) main.old bytes.now }
{
    let mut into = a;
    let mut rest = bytes;
    while into.piece.count < rest.len() {
        let k = into.piece.count;
        put_at(main, into.piece.address, rest, k);
        rest = &rest[k..];
        into = next_piece(chain, into);
    }
    put_at(main, into.piece.address, rest, rest.len());
}

// These bytes go to the front of the area.
pub fn deliver(chain: &[u8], a: Area, main: &mut [u8], bytes: &[u8])
    requires { InArea chain.now a main.old (length bytes.now) }
    ensures { main.new ≡ scattered (area_of chain.now a) main.old bytes.now }
{
    if a.piece.count < bytes.len() {
        scatter(chain, a, main, bytes);
        return;
    }
    put_at(main, a.piece.address, bytes, bytes.len());
}

// What is left of an area behind its first n bytes. Where the first piece ends is asked to be a number that the machine holds.
pub fn skip(chain: &[u8], a: Area, n: usize) -> Area
    requires { Stands chain.now a × (n ≤ counts (area_of chain.now a)) × (a.piece.address + a.piece.count < 18446744073709551616) }
    ensures { Rest chain.now a n result }
{
    let mut rest = a;
    let mut left = n;
    while rest.piece.count < left {
        left -= rest.piece.count;
        rest = next_piece(chain, rest);
    }
    let p = rest.piece;
    Area {
        piece: Piece {
            address: p.address + left,
            count: p.count - left,
            ..p
        },
        ..rest
    }
}
