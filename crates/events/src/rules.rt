// Events and blocks by what the lines of their component say: the rules of refusal 10.
// No line is read here: what the lines say together decides.
ghost use Rattle.std.specs.Prelude.{◌≡◌};
ghost use Rattle.events.specs.Events.{stated_end, stated_duration, ending_by, limit_by, repeat_by, days_by, interval_by};
ghost use Rattle.events.specs.Events.{busy_by_status, busy_by, event_made, event_by, block_from, block_by};

use crate::{Block, ComponentProperties, Ending, Event, Repeat};
use periods::BusyType;
use property::Status;
use time::date_time::Kind;
use time::duration::Duration;
use values::rule::{Limit, Rule};
use values::times::Time;

// DTEND is of DTSTART's kind and later.
fn stated_end(s: Time, e: Time) -> Option<Ending>
    ensures { result ≡ stated_end s e }
{
    if (e.kind == s.kind) & (s.second < e.second) {
        Some(Ending::End(e.second))
    } else {
        None
    }
}

// An event on a DATE lasts whole days.
fn stated_duration(s: Time, d: Duration) -> Option<Ending>
    ensures { result ≡ stated_duration s d }
{
    if (s.kind == Kind::Date) & d.timed {
        None
    } else {
        Some(Ending::Lasts(d))
    }
}

// One of three endings, and not both DTEND and DURATION.
fn ending_by(s: Time, end: Option<Time>, lasts: Option<Duration>) -> Option<Ending>
    ensures { result ≡ ending_by s end lasts }
{
    match end {
        None => match lasts {
            None => Some(Ending::None),
            Some(d) => stated_duration(s, d),
        },
        Some(e) => match lasts {
            None => stated_end(s, e),
            Some(_) => None,
        },
    }
}

// UNTIL must be a time like DTSTART, and no earlier.
fn limit_by(s: Time, limit: Limit) -> Option<Repeat>
    ensures { result ≡ limit_by s limit }
{
    match limit {
        Limit::Forever => Some(Repeat::Forever),
        Limit::Count(n) => Some(Repeat::Count(n)),
        Limit::Until(t) => {
            if (t.kind == s.kind) & (s.second <= t.second) {
                Some(Repeat::Until(t.second))
            } else {
                None
            }
        }
    }
}

// Without a rule there is instance 0 alone.
fn repeat_by(s: Time, g: Option<Rule>) -> Option<Repeat>
    ensures { result ≡ repeat_by s g }
{
    match g {
        None => Some(Repeat::Once),
        Some(x) => limit_by(s, x.limit),
    }
}

fn days_by(g: Option<Rule>) -> u64
    ensures { result ≡ days_by g }
{
    g.map_or(1, |x| x.days)
}

fn interval_by(g: Option<Rule>) -> u64
    ensures { result ≡ interval_by g }
{
    g.map_or(1, |x| x.interval)
}

fn busy_by_status(g: Option<Status>) -> BusyType
    ensures { result ≡ busy_by_status g }
{
    match g {
        None => BusyType::Busy,
        Some(x) => match x {
            Status::Cancelled => BusyType::Free,
            Status::Tentative => BusyType::Tentative,
            Status::Other => BusyType::Busy,
        },
    }
}

// TRANSP decides before STATUS.
fn busy_by(transparency: Option<bool>, status: Option<Status>) -> BusyType
    ensures { result ≡ busy_by transparency status }
{
    if transparency.unwrap_or(false) {
        BusyType::Free
    } else {
        busy_by_status(status)
    }
}

// The event that starts so, ends so and repeats so.
fn event_made(s: Time, g: ComponentProperties, ending: Ending, repeat: Repeat) -> Event
    ensures { result ≡ event_made s g ending repeat }
{
    Event {
        kind: s.kind,
        start: s.second,
        ending,
        days: days_by(g.repeats),
        interval: interval_by(g.repeats),
        repeat,
        busy: busy_by(g.busy.transparency, g.busy.status),
    }
}

// A VEVENT: exactly one DTSTART, at most one of each other property.
pub fn event_by(g: ComponentProperties) -> Option<Event>
    ensures { result ≡ event_by g }
{
    if g.repeated {
        return None;
    }
    let s = g.span.start?;
    let ending = ending_by(s, g.span.end, g.span.lasts)?;
    let repeat = repeat_by(s, g.repeats)?;
    Some(event_made(s, g, ending, repeat))
}

// If both are given, the end is later.
fn block_from(start: Option<Time>, end: Option<Time>) -> Option<Block>
    ensures { result ≡ block_from start end }
{
    let block = Block {
        start: start.map(|t| t.second),
        end: end.map(|t| t.second),
    };
    match (start, end) {
        (Some(s), Some(e)) => (s.second < e.second).then_some(block),
        _ => Some(block),
    }
}

// A VFREEBUSY: at most one DTSTART and one DTEND.
pub fn block_by(g: ComponentProperties) -> Option<Block>
    ensures { result ≡ block_by g }
{
    if g.repeated {
        return None;
    }
    block_from(g.span.start, g.span.end)
}
