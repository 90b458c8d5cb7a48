// Recurrence instances and the time range test of events and blocks.
// Each function equals, or decides, one definition of specs/.
#![tactic(auto)]

pub mod instance;
pub mod time_range;
