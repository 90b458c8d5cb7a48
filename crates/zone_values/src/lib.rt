// The values of the lines of a time zone: UTC offsets, the yearly rule of a part, and a part's onset.
// Which lines have them read is decided above.
#![tactic(auto)]

pub mod offset;
pub mod onset;
pub mod zone_rule;
