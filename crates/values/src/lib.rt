// The values that are read: DATE and DATE-TIME within the limits, lists of them, RRULE, and the periods of FREEBUSY.
// Which lines have them read is decided above.
#![tactic(auto)]

pub mod given;
pub mod period;
pub mod rule;
pub mod time_lists;
pub mod times;
