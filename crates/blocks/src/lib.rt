// The blocks of a device: how many there are, those of a READ and of a WRITE (`read_blocks`, `store_blocks`), and one that goes from its
// alternate to its own place (`bring_home`). Where no alternate is in use, blocks lie one after another, and a transfer is one part of the
// store. Else it goes by windows of blocks: `places` tells where each lies, and those that lie in a row are one part. Nothing here is
// refused: a caller proves that the blocks are the device's, and the bytes in the data area. What READ does has its mirror in what WRITE
// does: the store is lent to be read by one and to be written by the other, and no type of a reference is both.
#![tactic(auto)]

ghost use Rattle.std.specs.Prelude.{◌≡◌, List, ℕ, ◌+◌, ◌*◌, ◌≤◌, ◌<◌, length, get_or, take};
ghost use Rattle.slices.specs.Parts.{part, put, pad};
ghost use Rattle.model.specs.Alternates.{map_size, alternate_of};
ghost use Rattle.model.specs.Lent.{store_blocks, block_count, blocks_from, blocks_into};
ghost use Rattle.model.specs.Pieces.{bytes_in, scattered};
ghost use Rattle.model.specs.Decoded.{area_of};
ghost use Rattle.model.specs.Commands.{begun};
ghost use Rattle.model.specs.GiveBack.{brought_home};
ghost use Rattle.model.specs.Safe.{Usable, Mounted, InArea};
ghost use Rattle.storage.specs.Area.{Rest};
ghost use Rattle.blocks.specs.Places.{Movable, RowMovable, AllMovable, PlacesOf, follows, no_alternate};

use alternates::{alternate_of, none_used, places};
use model::decoded::Area;
use model::device::Device;
use slices::copy_within;
use storage::{deliver, fetch, skip};

// The blocks whose places are asked for at a time.
const WINDOW: usize = 128;

// The blocks of a device: its primaries.
pub fn block_count(d: Device, store: &[u8]) -> usize
    requires { Usable d × (d.alternates ≤ store_blocks d store.now) }
    ensures { result ≡ block_count d store.now }
{
    store.len() / d.block - d.alternates
}

// The blocks that n bytes begin.
pub fn begun(d: Device, n: usize) -> usize
    requires { Usable d × (n ≤ 2097120) }
    ensures { result ≡ begun d n }
{
    (n + (d.block - 1)) / d.block
}

// No alternate of the device is in use.
fn no_alternate(d: Device, map: &[u8]) -> bool
    requires { length map.now ≡ map_size }
    ensures { result ≡ no_alternate d map.now }
{
    if d.alternates == 0 {
        return true;
    }
    none_used(map)
}

// The next of two places is behind the other, so that their blocks are of one row.
fn follows(place: &usize, next: &usize) -> bool
    ensures { result ≡ follows place.now next.now }
{
    place.wrapping_add(1) == *next
}

// n bytes of the blocks that lie in a row from a place on go to the front of the data area.
fn read_row(
    d: Device,
    store: &[u8],
    at: usize,
    blocks: usize,
    chain: &[u8],
    a: Area,
    main: &mut [u8],
    n: usize,
)
    requires { RowMovable d store.now at blocks chain.now a main.old n }
    ensures { main.new
        ≡ scattered (area_of chain.now a) main.old (take n (part store.now (at * d.block) (blocks * d.block))) }
{
    let start = at * d.block;
    let end = start + blocks * d.block;
    deliver(chain, a, main, &store[start..end][..n]);
}

// n bytes of the blocks at these places go to the front of the data area, row by row. It returns what is left of the area.
fn read_window(
    d: Device,
    store: &[u8],
    at: &[usize],
    chain: &[u8],
    a: Area,
    main: &mut [u8],
    n: usize,
) -> Area
    requires { AllMovable d store.now at.now chain.now a main.old n }
    ensures rest { Rest chain.now a n result }
    ensures read { (map : List ℕ) (block : ℕ) → PlacesOf d map store.now block at.now → main.new
        ≡ scattered (area_of chain.now a) main.old (take n (blocks_from d map store.now block (length at.now))) }
{
    let mut into = a;
    let mut left = n;
    for row in at.chunk_by(follows) {
        if left == 0 {
            return into;
        }
        let k = (row.len() * d.block).min(left);
        read_row(d, store, row[0], row.len(), chain, into, main, k);
        into = skip(chain, into, k);
        left -= k;
    }
    into
}

// n bytes of the blocks from `block` on, as many as `at` has room for the places of, go to the front of the data area. It returns what is
// left of the area.
fn read_placed(
    d: Device,
    store: &[u8],
    map: &[u8],
    primaries: usize,
    block: usize,
    at: &mut [usize],
    chain: &[u8],
    a: Area,
    main: &mut [u8],
    n: usize,
) -> Area
    requires { Movable d store.now map.now block (length at.old) chain.now a main.old n × (primaries ≡ block_count d store.now) }
    ensures rest { Rest chain.now a n result }
    ensures read { main.new
        ≡ scattered (area_of chain.now a) main.old (take n (blocks_from d map.now store.now block (length at.old))) }
{
    places(d.alternates, primaries, map, block, at);
    read_window(d, store, at, chain, a, main, n)
}

// As `read_mapped`, window by window.
fn read_windows(
    d: Device,
    store: &[u8],
    map: &[u8],
    block: usize,
    blocks: usize,
    chain: &[u8],
    a: Area,
    main: &mut [u8],
    n: usize,
)
    requires { Movable d store.now map.now block blocks chain.now a main.old n }
    ensures { main.new
        ≡ scattered (area_of chain.now a) main.old (take n (blocks_from d map.now store.now block blocks)) }
{
    let primaries = block_count(d, store);
    let mut into = a;
    let mut left = n;
    for here in (block..block + blocks).step_by(WINDOW) {
        if left == 0 {
            return;
        }
        let w = WINDOW.min(block + blocks - here);
        let k = (w * d.block).min(left);
        let mut at = [0usize; WINDOW];
        into = read_placed(
            d,
            store,
            map,
            primaries,
            here,
            &mut at[..w],
            chain,
            into,
            main,
            k,
        );
        left -= k;
    }
}

// As `read_blocks`, whether or not an alternate is in use. It asks where blocks lie of those alone that the bytes reach. READ IPL, which is
// rare, goes this way always; two callers keep it a function of its own, and small what READ has inlined.
pub fn read_mapped(
    d: Device,
    store: &[u8],
    map: &[u8],
    block: usize,
    blocks: usize,
    chain: &[u8],
    a: Area,
    main: &mut [u8],
    n: usize,
)
    requires { Movable d store.now map.now block blocks chain.now a main.old n }
    ensures { main.new
        ≡ scattered (area_of chain.now a) main.old (take n (blocks_from d map.now store.now block blocks)) }
{
    read_windows(d, store, map, block, n.div_ceil(d.block), chain, a, main, n);
}

// n bytes of these blocks go to the front of the data area.
pub fn read_blocks(
    d: Device,
    store: &[u8],
    map: &[u8],
    block: usize,
    blocks: usize,
    chain: &[u8],
    a: Area,
    main: &mut [u8],
    n: usize,
)
    requires { Movable d store.now map.now block blocks chain.now a main.old n }
    ensures { main.new
        ≡ scattered (area_of chain.now a) main.old (take n (blocks_from d map.now store.now block blocks)) }
{
    if no_alternate(d, map) {
        read_row(d, store, block, blocks, chain, a, main, n);
        return;
    }
    read_mapped(d, store, map, block, blocks, chain, a, main, n);
}

// n bytes of the data area, and then zeros, fill a part of the store.
fn fill(part: &mut [u8], chain: &[u8], a: Area, main: &[u8], n: usize)
    requires { (n ≤ length part.old) × InArea chain.now a main.now n }
    ensures { part.new ≡ pad (length part.old) (take n (bytes_in (area_of chain.now a) main.now)) }
{
    fetch(chain, a, main, &mut part[..n]);
    part[n..].fill(0);
}

// n bytes of the data area, and zeros where they run out, go to the blocks that lie in a row from a place on.
fn store_row(
    d: Device,
    store: &mut [u8],
    at: usize,
    blocks: usize,
    chain: &[u8],
    a: Area,
    main: &[u8],
    n: usize,
)
    requires { RowMovable d store.old at blocks chain.now a main.now n }
    ensures { store.new
        ≡ put store.old (at * d.block) (pad (blocks * d.block) (take n (bytes_in (area_of chain.now a) main.now))) }
{
    let start = at * d.block;
    let end = start + blocks * d.block;
    fill(&mut store[start..end], chain, a, main, n);
}

// n bytes of the data area, and zeros where they run out, go to the blocks at these places, row by row. It returns what is left of the area.
fn store_window(
    d: Device,
    store: &mut [u8],
    at: &[usize],
    chain: &[u8],
    a: Area,
    main: &[u8],
    n: usize,
) -> Area
    requires { AllMovable d store.old at.now chain.now a main.now n }
    ensures rest { Rest chain.now a n result }
    ensures stored { (map : List ℕ) (block : ℕ) → PlacesOf d map store.old block at.now → store.new
        ≡ blocks_into d map store.old block (length at.now) (take n (bytes_in (area_of chain.now a) main.now)) }
{
    let mut from = a;
    let mut left = n;
    for room in at.chunk_by(follows) {
        let k = (room.len() * d.block).min(left);
        store_row(d, store, room[0], room.len(), chain, from, main, k);
        from = skip(chain, from, k);
        left -= k;
    }
    from
}

// n bytes of the data area, and zeros where they run out, go to the blocks from `block` on, as many as `at` has room for the places of. It
// returns what is left of the area.
fn store_placed(
    d: Device,
    store: &mut [u8],
    map: &[u8],
    primaries: usize,
    block: usize,
    at: &mut [usize],
    chain: &[u8],
    a: Area,
    main: &[u8],
    n: usize,
) -> Area
    requires { Movable d store.old map.now block (length at.old) chain.now a main.now n × (primaries ≡ block_count d store.old) }
    ensures rest { Rest chain.now a n result }
    ensures stored { store.new
        ≡ blocks_into d map.now store.old block (length at.old) (take n (bytes_in (area_of chain.now a) main.now)) }
{
    places(d.alternates, primaries, map, block, at);
    store_window(d, store, at, chain, a, main, n)
}

// As `store_blocks`, whether or not an alternate is in use: window by window.
fn store_mapped(
    d: Device,
    store: &mut [u8],
    map: &[u8],
    block: usize,
    blocks: usize,
    chain: &[u8],
    a: Area,
    main: &[u8],
    n: usize,
)
    requires { Movable d store.old map.now block blocks chain.now a main.now n }
    ensures { store.new
        ≡ blocks_into d map.now store.old block blocks (take n (bytes_in (area_of chain.now a) main.now)) }
{
    let primaries = block_count(d, store);
    let end = block + blocks;
    let mut from = a;
    let mut left = n;
    for here in (block..end).step_by(WINDOW) {
        let w = WINDOW.min(end - here);
        let k = (w * d.block).min(left);
        let mut at = [0usize; WINDOW];
        from = store_placed(
            d,
            store,
            map,
            primaries,
            here,
            &mut at[..w],
            chain,
            from,
            main,
            k,
        );
        left -= k;
    }
}

// n bytes of the data area, and zeros where they run out, go to these blocks.
pub fn store_blocks(
    d: Device,
    store: &mut [u8],
    map: &[u8],
    block: usize,
    blocks: usize,
    chain: &[u8],
    a: Area,
    main: &[u8],
    n: usize,
)
    requires { Movable d store.old map.now block blocks chain.now a main.now n }
    ensures { store.new
        ≡ blocks_into d map.now store.old block blocks (take n (bytes_in (area_of chain.now a) main.now)) }
{
    if no_alternate(d, map) {
        store_row(d, store, block, blocks, chain, a, main, n);
        return;
    }
    store_mapped(d, store, map, block, blocks, chain, a, main, n);
}

// The data of a mapped block goes from its alternate to its own place, and zeros to the alternate.
pub fn bring_home(d: Device, store: &mut [u8], map: &[u8], block: usize)
    requires { Mounted d store.old map.now × (block < block_count d store.old) × (alternate_of map.now d.alternates block < d.alternates) }
    ensures { store.new ≡ brought_home d map.now store.old block }
{
    let alternate = alternate_of(d.alternates, map, block).unwrap();
    let start = (block_count(d, store) + alternate) * d.block;
    let end = start + d.block;
    copy_within(store, start, block * d.block, d.block);
    store[start..end].fill(0);
}
