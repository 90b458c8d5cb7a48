// Busy pieces of a period and of an event, stored one after the other in lent memory.
// The walk over a calendar calls it for each event and each FREEBUSY period.
#![tactic(auto)]

pub mod storing;
