// The value of FREEBUSY: a comma list of UTC periods.
// An end is stated or computed; a stated one keeps the limits.
ghost use Rattle.std.specs.Prelude.{◌≡◌, ◌≤◌};
ghost use Rattle.time.specs.Limits.{last_second};
ghost use Rattle.time.specs.Duration.{read_duration};
ghost use Rattle.values.specs.Period.{utc_at, end_by, period_to, period_from, period_of, period_items, is_period, all_periods};

use line::split;
use periods::Period;
use time::date_time::Kind;
use time::{date_time, duration, limits};

// The second of a UTC DATE-TIME within the limits.
fn utc_at(s: &[u8]) -> Option<u64>
    ensures { result ≡ utc_at s.now }
{
    let read = date_time::read_date_time(s)?;
    if read.kind == Kind::Utc {
        limits::utc_second(Kind::Utc, read.clock, 0)
    } else {
        None
    }
}

// The end of a period from a second on: stated, or a duration later.
fn end_at(start: u64, s: &[u8]) -> Option<u64>
    requires { start ≤ last_second }
    ensures { result ≡ end_by start (utc_at s.now) (read_duration s.now) }
{
    if let Some(end) = utc_at(s) {
        return Some(end);
    }
    let length = duration::read_duration(s)?;
    Some(start + duration::duration_seconds(length))
}

// The period, where its end is after its start.
fn period_to(start: u64, end: Option<u64>) -> Option<Period>
    ensures { result ≡ period_to start end }
{
    let end = end?;
    if start < end {
        Some(Period { start, end })
    } else {
        None
    }
}

fn period_from(start: &[u8], s: &[u8]) -> Option<Period>
    ensures { result ≡ period_from (utc_at start.now) s.now }
{
    let from = utc_at(start)?;
    period_to(from, end_at(from, s))
}

// A period: start, slash, and end or duration.
pub fn read_period(s: &[u8]) -> Option<Period>
    ensures { result ≡ period_of s.now }
{
    let e = split::find(s, 0, 47, false);
    if e < s.len() {
        return period_from(&s[..e], &s[e + 1..]);
    }
    None
}

fn is_period(s: &[u8]) -> bool
    ensures { result ≡ is_period (period_of s.now) }
{
    read_period(s).is_some()
}

// Is each item of a comma list a period?
pub fn all_periods(v: &[u8]) -> bool
    ensures { result ≡ all_periods (period_items v.now) }
{
    v.split(|&b| b == 44).all(is_period)
}
