// What the desk's programs share: reading arguments and files, and printing.
// Nothing here decides an answer.
#![tactic(auto)]

pub mod args;
pub mod fault_line;
pub mod file;
pub mod out;
pub mod query;
pub mod room;
pub mod stop;
