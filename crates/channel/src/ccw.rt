// How CCWs are read from the chain: a piece, the next piece of an area, and the command that a CCW begins. Byte 5 of a CCW is ignored.
ghost use Rattle.std.specs.Prelude.{◌≡◌, true, ◌∷◌, ◌+◌, ◌-◌, ◌*◌, ◌/◌, ◌≤◌, ◌<◌, length};
ghost use Rattle.numbers.specs.Bits.{bit};
ghost use Rattle.model.specs.Names.{chain_command};
ghost use Rattle.model.specs.Lent.{ccw_size, code_at, piece_at};
ghost use Rattle.model.specs.Pieces.{commands_from, counts, final_of};
ghost use Rattle.model.specs.Decoded.{pieces_from, Stands, Decodes, later_of, area_of, command_of};
ghost use Rattle.model.specs.Safe.{Closes, PieceFits};

use model::ccw::{Flags, Piece};
use model::decoded::{Area, Decoded};
use model::sizes;

// The piece of CCW i, counted from 0.
pub fn piece_at(chain: &[u8], i: usize) -> Piece
    requires { i * ccw_size + ccw_size ≤ length chain.now }
    ensures { (result ≡ piece_at chain.now i) × PieceFits result }
{
    let at = i * sizes::CCW;
    Piece {
        address: numbers::be3(chain, at + 1),
        count: numbers::be2(chain, at + 6),
        flags: Flags(chain[at + 4]),
    }
}

// What is left of an area behind its first piece.
pub fn next_piece(chain: &[u8], a: Area) -> Area
    requires { Stands chain.now a × (a.next < a.end) }
    ensures rest { (area_of chain.now result ≡ later_of chain.now a) × Stands chain.now result × PieceFits result.piece }
    ensures behind { (result.next ≡ a.next + 1) × (result.end ≡ a.end) }
{
    Area {
        piece: piece_at(chain, a.next),
        next: a.next + 1,
        end: a.end,
    }
}

// The CCWs of a command: the one behind the last, the sum of the counts, and the flags of the last.
#[derive(Clone, Copy)]
struct Ccws {
    end: usize,
    count: usize,
    flags: Flags,
}

// From CCW i on, as long as they have flag 80: such a CCW is not the one that ends the chain, so there is another.
fn ccws_from(chain: &[u8], i: usize, first: Piece) -> Ccws
    requires { Closes chain.now i × (length chain.now ≤ 256) × (first ≡ piece_at chain.now i) × PieceFits first }
    ensures stand { (i < result.end) × (result.end * ccw_size ≤ length chain.now) }
    ensures sum { (result.count ≡ counts (first ∷ pieces_from chain.now (i + 1) (result.end - (i + 1)))) × (result.count ≤ 2097120) }
    ensures last { result.flags ≡ (final_of first (pieces_from chain.now (i + 1) (result.end - (i + 1)))).flags }
    ensures one { commands_from chain.now (length chain.now / ccw_size - i) i
        ≡ record { command = code_at chain.now i; first = first; later = pieces_from chain.now (i + 1) (result.end - (i + 1)) }
        ∷ commands_from chain.now (length chain.now / ccw_size - result.end) result.end }
    ensures on { bit result.flags.0 chain_command ≡ true → Closes chain.now result.end }
{
    let mut flags = first.flags;
    let mut count = first.count;
    let mut end = i + 1;
    while flags.continued() {
        let p = piece_at(chain, end);
        flags = p.flags;
        count += p.count;
        end += 1;
    }
    Ccws {
        end: end,
        count: count,
        flags: flags,
    }
}

// The command that begins with CCW i. Where its last piece has flag 40, another command begins behind it.
pub fn command_at(chain: &[u8], i: usize) -> Decoded
    requires { Closes chain.now i × (length chain.now ≤ 256) }
    ensures told { Decodes chain.now result × (i < result.area.end) }
    ensures first { commands_from chain.now (length chain.now / ccw_size - i) i
        ≡ command_of chain.now result ∷ commands_from chain.now (length chain.now / ccw_size - result.area.end) result.area.end }
    ensures on { bit result.flags.0 chain_command ≡ true → Closes chain.now result.area.end }
{
    let first = piece_at(chain, i);
    let ccws = ccws_from(chain, i, first);
    let flags = ccws.flags;
    let next = i + 1;
    Decoded {
        area: Area {
            piece: first,
            next: next,
            end: ccws.end,
        },
        count: ccws.count,
        command: chain[i * sizes::CCW],
        flags: flags,
    }
}
