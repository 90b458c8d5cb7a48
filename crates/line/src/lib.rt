// Content lines: is each well formed, and the name, the parameters and the value of one, read in place.
// Each function equals one definition of specs/.
#![tactic(auto)]

pub mod check;
pub mod read;
pub mod scan;
pub mod split;
