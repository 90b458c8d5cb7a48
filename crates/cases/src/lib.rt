// Cases of the public calls as the test programs read them, a line each, and how they are run.
// Nothing here makes a call.
#![tactic(auto)]

pub mod case;
mod number;
pub mod reader;
pub mod run;
