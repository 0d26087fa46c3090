// The channel's own tests of a command, causes 13 and 10 to 12: the way in is `channel_cause`, which is Ok where the unit sees the command.
ghost use Rattle.std.specs.Prelude.{◌≡◌};
ghost use Rattle.model.specs.Rules.{first_of};
ghost use Rattle.model.specs.Causes.{no_command, leaves_storage, piece_causes, tested_of, channel_causes};
ghost use Rattle.model.specs.Decoded.{Stands, Decodes, later_of, command_of};
ghost use Rattle.model.specs.Safe.{PieceFits};
ghost use Rattle.model.specs.Told.{told};

use crate::ccw::next_piece;
use model::cause::Cause;
use model::ccw::Piece;
use model::command::is_no_operation;
use model::decoded::{Area, Decoded};

// The low four bits are 0 or 8: to the channel, no command.
fn no_command(command: u8) -> bool
    ensures { result ≡ no_command command }
{
    command & 0x07 == 0
}

// A piece of this command's data area leaves main storage. NO-OPERATION has none.
fn leaves_storage(command: u8, p: Piece, held: usize) -> bool
    requires { PieceFits p }
    ensures { result ≡ leaves_storage command p held }
{
    !is_no_operation(command) && held < p.address + p.count
}

// In their order, of one piece.
fn piece_cause(command: u8, p: Piece, held: usize) -> Result<(), Cause>
    requires { PieceFits p }
    ensures { told result ≡ first_of (piece_causes command held p) }
{
    let flags = p.flags;
    if flags.others() {
        return Err(Cause::OtherFlags);
    }
    if p.count == 0 {
        return Err(Cause::NoCount);
    }
    if leaves_storage(command, p, held) {
        return Err(Cause::LeavesStorage);
    }
    Ok(())
}

// Piece by piece, up to the first that is refused.
fn pieces_cause(chain: &[u8], command: u8, a: Area, held: usize) -> Result<(), Cause>
    requires { Stands chain.now a × PieceFits a.piece }
    ensures { told result ≡ first_of (piece_causes command held (tested_of command held a.piece (later_of chain.now a))) }
{
    let mut area = a;
    loop {
        piece_cause(command, area.piece, held)?;
        if area.end <= area.next {
            return Ok(());
        }
        area = next_piece(chain, area);
    }
}

// The command's own byte, then its pieces.
pub fn channel_cause(chain: &[u8], c: Decoded, main: &[u8]) -> Result<(), Cause>
    requires { Decodes chain.now c }
    ensures { told result ≡ first_of (channel_causes (command_of chain.now c) main.now) }
{
    if no_command(c.command) {
        return Err(Cause::NoCommand);
    }
    pieces_cause(chain, c.command, c.area, main.len())
}
