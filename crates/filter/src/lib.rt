// The tests of a query on a calendar: components, each in its time range.
// Each function equals one definition of specs/.
#![tactic(auto)]

pub mod components;
pub mod files;
pub mod ranges;
pub mod trials;
