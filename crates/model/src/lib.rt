// The unit's own types. What they mean stands in specs/, the unit as a definition.
#![tactic(auto)]

pub mod answer;
pub mod cause;
pub mod ccw;
pub mod command;
pub mod decoded;
pub mod device;
pub mod extent;
pub mod kind;
pub mod operation;
pub mod record;
pub mod sizes;
pub mod state;
pub mod status;
