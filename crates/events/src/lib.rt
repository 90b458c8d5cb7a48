// Events and free-busy blocks, by what the lines of a component say together: the component rules of refusal 10.
// Each function equals one definition of specs/.
#![tactic(auto)]

pub mod properties;
pub mod rows;
pub mod rules;

use periods::BusyType;
use property::Status;
use time::date_time::Kind;
use time::duration::Duration;
use values::rule::Rule;
use values::times::Time;

// How an event ends. None is a case of it: an Option<Ending> would make what ending_by answers, which may be none at all, an Option of an Option.
#[derive(Clone, Copy)]
pub enum Ending {
    // At a stated second.
    End(u64),
    // After a stated duration.
    Lasts(Duration),
    None,
}

// How far an event repeats.
#[derive(Clone, Copy)]
pub enum Repeat {
    // No rule: instance 0 alone.
    Once,
    Forever,
    Count(u64),
    // No instance starts after this second.
    Until(u64),
}

// EventSmall is no ghost field of it: rows::event_at and rules::event_by make one of any numbers, and may not ask for small ones.
#[derive(Clone, Copy)]
pub struct Event {
    pub kind: Kind,
    pub start: u64,
    pub ending: Ending,
    // An instance starts every `days` times `interval` days.
    pub days: u64,
    pub interval: u64,
    pub repeat: Repeat,
    pub busy: BusyType,
}

#[derive(Clone, Copy)]
pub struct Block {
    pub start: Option<u64>,
    pub end: Option<u64>,
}

// When it takes place.
#[derive(Clone, Copy)]
pub struct SpanProperties {
    pub start: Option<Time>,
    pub end: Option<Time>,
    pub lasts: Option<Duration>,
}

// What it counts for.
#[derive(Clone, Copy)]
pub struct BusyProperties {
    pub status: Option<Status>,
    pub transparency: Option<bool>,
}

// What the lines of a component say together. `repeated` is no Result: with_start and its like cannot fail, and the lines behind a repeated one are still read.
#[derive(Clone, Copy)]
pub struct ComponentProperties {
    // Does a line stand twice that may stand once?
    pub repeated: bool,
    pub span: SpanProperties,
    pub repeats: Option<Rule>,
    pub busy: BusyProperties,
}
