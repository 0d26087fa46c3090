// One command: the channel's tests, the unit's, then the command's own and what it does. `step` is the way in.
#![tactic(auto)]

ghost use Rattle.std.specs.Prelude.{◌≡◌, [], ◌∷◌};
ghost use Rattle.numbers.specs.Choice.{one_of};
ghost use Rattle.model.specs.Names.{SENSE, SENSE_TYPE};
ghost use Rattle.model.specs.Causes.{not_ready};
ghost use Rattle.model.specs.Commands.{step};
ghost use Rattle.model.specs.Decoded.{command_of, Decodes};
ghost use Rattle.unit_state.specs.Standing.{holding, state_of, Sound};
ghost use Rattle.endings.specs.Ending.{Ends};
ghost use Rattle.unit.specs.Received.{Received};

use channel::causes::channel_cause;
use command_extent::define_extent;
use command_locate::locate;
use command_sense::{read_log, sense, sense_type};
use command_transfer::{read, read_ipl, write};
use endings::{Ended, accept, refuse};
use model::cause::Cause;
use model::command::Command;
use model::decoded::Decoded;
use model::device::Device;
use model::record::Record;
use unit_state::Running;

// What a unit answers that is not ready.
#[tactic(auto, unfolding(numbers::specs::Choice::one_of))]
fn answers_unready(code: u8) -> bool
    ensures { result ≡ one_of (SENSE ∷ SENSE_TYPE ∷ []) code }
{
    matches!(
        Command::try_from(code),
        Ok(Command::Sense | Command::SenseType)
    )
}

fn not_ready(code: u8, ready: u8) -> bool
    ensures { result ≡ not_ready ready code }
{
    ready == 0 && !answers_unready(code)
}

// A command that the channel passed on to a unit that is ready for it.
fn perform(
    d: Device,
    u: Record,
    chain: &[u8],
    c: Decoded,
    s: Running,
    main: &mut [u8],
    store: &mut [u8],
    map: &mut [u8],
) -> Ended
    requires { Sound d s store.old map.old × Decodes chain.now c × Received (command_of chain.now c) u main.old }
    ensures { Ends (holding u map.new) (command_of chain.now c) s result main.new store.new (step d (command_of chain.now c) (state_of (holding u map.old) s) main.old store.old) }
{
    match Command::try_from(c.command) {
        Ok(Command::NoOperation) => accept(c, s.passed(), 0, 0, 0),
        Ok(Command::DefineExtent) => define_extent(d, chain, c, s, main, store),
        Ok(Command::Locate) => locate(d, u, chain, c, s, main, map),
        Ok(Command::Read) => read(d, chain, c, s, main, store, map),
        Ok(Command::Write) => write(d, chain, c, s, main, store, map),
        Ok(Command::ReadIpl) => read_ipl(d, chain, c, s, main, store, map),
        Ok(Command::Sense) => sense(u, chain, c, s, main),
        Ok(Command::SenseType) => sense_type(chain, c, s, main),
        Ok(Command::ReadLog) => read_log(chain, c, s, main),
        Err(cause) => refuse(s, cause),
    }
}

pub fn step(
    d: Device,
    u: Record,
    chain: &[u8],
    c: Decoded,
    s: Running,
    main: &mut [u8],
    store: &mut [u8],
    map: &mut [u8],
) -> Ended
    requires { Sound d s store.old map.old × Decodes chain.now c }
    ensures { Ends (holding u map.new) (command_of chain.now c) s result main.new store.new (step d (command_of chain.now c) (state_of (holding u map.old) s) main.old store.old) }
{
    if let Err(cause) = channel_cause(chain, c, main) {
        return refuse(s, cause);
    }
    if not_ready(c.command, u.ready) {
        return refuse(s, Cause::NotReady);
    }
    perform(d, u, chain, c, s, main, store, map)
}
