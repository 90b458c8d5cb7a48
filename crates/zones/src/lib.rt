// Time zones (R-5): the onsets of a zone's parts, the offset of a wall clock, its UTC time, and until when the offset stays.
// A clock is the seconds since 00000101T000000, as time::date_time counts them. Parts stand as rows of numbers in lent memory.
// That a clock w is before `clock_end` stays a clause: docs/TRACE.md names functions that take w as a number (`changes::steady`, `offsets::offset_at`).
#![tactic(auto)]

pub mod changes;
pub mod offsets;
pub mod onsets;
pub mod rows;
pub mod rule_days;

// A STANDARD or DAYLIGHT part of a zone.
// GoodPart is no ghost field of it: rows::part_at makes one of any numbers, and may not ask for good ones.
#[derive(Clone, Copy)]
pub struct Part {
    // The clock of its DTSTART.
    pub start: u64,
    // TZOFFSETFROM and TZOFFSETTO, each with a day added, so that no offset is negative.
    pub from: u64,
    pub to: u64,
    // BYMONTH, and 0 where there is no rule: that month has no days, which RuleDay and the row of the part (part_row) say, so no Option.
    pub month: u64,
    // BYDAY: how many others of the weekday come before the day in its month, or, where the ordinal is negative, behind it.
    pub others: u64,
    pub back: bool,
    // Sunday is 0.
    pub weekday: u64,
}

// The offset of a clock, and a later clock up to which every one has the same.
#[derive(Clone, Copy)]
pub struct Steady {
    pub offset: u64,
    pub until: u64,
}
