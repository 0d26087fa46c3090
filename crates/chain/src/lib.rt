// How a chain is done: the causes that refuse a call, the run, one turn for each command, and the call.
#![tactic(auto)]

pub mod call;
pub mod causes;
pub mod run;
