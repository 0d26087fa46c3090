// What changes while a chain runs, beside the record that it found, and the state after a command. A command that leaves other
// sense than none, or than what was found, ends the chain: its kind and its sense are then beside the state, in `Left`.
#![tactic(auto)]

ghost use Rattle.std.specs.Prelude.{◌≡◌};
ghost use Rattle.unit_state.specs.Standing.{started, went_on, with_extent, with_locate, passed_on, sense_now};

use model::extent::{Extent, Located};
use model::kind::Kind;
use model::record::{Counts, Record};
use model::sizes;
use model::state::Before;
use sense_table::Sense;

// `kept`: the pending sense is still what the chain found; else there is none.
#[derive(Clone, Copy)]
pub struct Running {
    pub extent: Extent,
    pub located: Located,
    pub counts: Counts,
    pub before: Before,
    pub kept: bool,
    pub defined: bool,
}

impl Running {
    // No extent, and no command before: nothing is kept from an earlier chain but the record.
    pub fn start(u: Record) -> Running
        ensures { result ≡ started u }
    {
        let blocks_read = u.blocks_read;
        let blocks_written = u.blocks_written;
        let movements = u.movements;
        Running {
            kept: true,
            defined: false,
            before: Before::Nothing,
            counts: Counts {
                blocks_read,
                blocks_written,
                movements,
            },
            extent: Extent::default(),
            located: Located::default(),
        }
    }

    // The state after a command that zeroed the sense: these counts, and what the next command has before it.
    pub fn after(self, k: Counts, before: Before) -> Running
        ensures { result ≡ went_on self k before }
    {
        Running {
            kept: false,
            before,
            counts: k,
            ..self
        }
    }

    // The same, with another extent.
    pub fn extent_set(self, k: Counts, e: Extent, before: Before) -> Running
        ensures { result ≡ with_extent self k e before }
    {
        Running {
            defined: true,
            extent: e,
            ..self.after(k, before)
        }
    }

    // The same, with another LOCATE.
    pub fn locate_set(self, k: Counts, l: Located) -> Running
        ensures { result ≡ with_locate self k l }
    {
        Running {
            located: l,
            ..self.after(k, Before::Locate)
        }
    }

    // The state after a command that changed nothing in it, but stands before the next.
    pub fn passed(self) -> Running
        ensures { result ≡ passed_on self }
    {
        Running {
            before: Before::Other,
            ..self
        }
    }

    // The same, field by field: a copy of the whole is one of its gaps too, which the compiler then carries along.
    pub fn carried(self) -> Running
        ensures { result ≡ self }
    {
        let Running {
            extent,
            located,
            counts,
            before,
            kept,
            defined,
        } = self;
        Running {
            extent,
            located,
            counts,
            before,
            kept,
            defined,
        }
    }
}

// The pending sense, in a chain that found this one.
pub fn sense_now(found: [u8; sizes::SENSE], kept: bool) -> [u8; sizes::SENSE]
    ensures { result ≡ sense_now found kept }
{
    if kept { found } else { [0u8; sizes::SENSE] }
}

// How a command leaves the unit, or a chain: the state, whether it was accepted or who refused it, and the sense of its cause.
// A refused command has the state here that it found.
#[derive(Clone, Copy)]
pub struct Left {
    pub state: Running,
    pub sense: Sense,
    pub kind: Kind,
}
