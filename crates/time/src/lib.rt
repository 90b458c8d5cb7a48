// Gregorian days, DATE, DATE-TIME and DURATION values, the limits of a second, and writing a UTC DATE-TIME.
// Each function equals one definition of specs/.
#![tactic(auto)]

pub mod date_time;
pub mod days;
pub mod duration;
pub mod limits;
pub mod writing;
