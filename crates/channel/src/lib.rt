// What the channel does before the unit sees a command: the CCW, and its own tests of it.
#![tactic(auto)]

pub mod causes;
pub mod ccw;
