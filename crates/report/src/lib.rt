// The report's bytes: written line by line, and their heads compared.
// Each function equals one definition of specs/.
#![tactic(auto)]

pub mod heads;
pub mod lines;
