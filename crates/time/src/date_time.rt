// DATE and DATE-TIME values: the text of a value to its kind and its clock.
// Whether a clock is within the limits is asked by the caller, which has the offset.
ghost use Rattle.std.specs.Prelude.{◌≡◌, ◌+◌, ◌≤◌, length};
ghost use Rattle.time.specs.DateTime.{digit_pair, pair_at, year_at, checked_day, three, date_at, checked_time, time_at, read_date, clock_at, read_date_time};

use crate::days;

// What a value's clock shows: UTC, a floating time, or the midnight of a DATE.
#[derive(Clone, Copy, PartialEq, Eq)]
pub enum Kind {
    Utc,
    Floating,
    Date,
}

// A value read: its kind and the seconds since 00000101T000000 by its own clock.
#[derive(Clone, Copy)]
pub struct DateTime {
    pub kind: Kind,
    pub clock: u64,
}

// The number of two digits.
fn digit_pair(a: u8, b: u8) -> Option<u64>
    ensures { result ≡ digit_pair a b }
{
    if ascii::is_digit(a) & ascii::is_digit(b) {
        return Some((a as u64 - 48) * 10 + (b as u64 - 48));
    }
    None
}

// The number of the two digits at a place.
pub fn pair_at(s: &[u8], at: usize) -> Option<u64>
    requires { at + 2 ≤ length s.now }
    ensures { result ≡ pair_at s.now at }
{
    digit_pair(s[at], s[at + 1])
}

// The number of the four digits at the start.
fn year_at(s: &[u8]) -> Option<u64>
    requires { 8 ≤ length s.now }
    ensures { result ≡ year_at s.now }
{
    let hundreds = pair_at(s, 0)?;
    let rest = pair_at(s, 2)?;
    Some(hundreds * 100 + rest)
}

// The day's number, where there is such a day. The year stays a number, as days_before_year, which docs/TRACE.md names, takes it.
fn checked_day(y: u64, m: u64, d: u64) -> Option<u64>
    requires { y ≤ 9999 }
    ensures { result ≡ checked_day y m d }
{
    if d < 1 {
        return None;
    }
    if days::month_days(y, m) < d {
        return None;
    }
    Some(days::days_before_year(y) + days::days_before_month(y, m) + (d - 1))
}

// The day's number of the YYYYMMDD at the start.
fn date_at(s: &[u8]) -> Option<u64>
    requires { 8 ≤ length s.now }
    ensures { result ≡ date_at s.now }
{
    let year = year_at(s)?;
    let month = pair_at(s, 4)?;
    let day = pair_at(s, 6)?;
    checked_day(year, month, day)
}

// The second of the day, where there is such a time; the second 60 reads as 59.
fn checked_time(h: u64, m: u64, s: u64) -> Option<u64>
    ensures { result ≡ checked_time h m s }
{
    if (h <= 23) & (m <= 59) & (s <= 60) {
        if s == 60 {
            return Some(h * 3600 + m * 60 + 59);
        }
        return Some(h * 3600 + m * 60 + s);
    }
    None
}

// The second of the day of an hour, a minute and a second, where each was read.
pub fn time_of(hour: Option<u64>, minute: Option<u64>, second: Option<u64>) -> Option<u64>
    ensures { result ≡ three checked_time hour minute second }
{
    checked_time(hour?, minute?, second?)
}

// The second of the day of the HHMMSS at the ninth byte.
fn time_at(s: &[u8]) -> Option<u64>
    requires { 15 ≤ length s.now }
    ensures { result ≡ time_at s.now }
{
    time_of(pair_at(s, 9), pair_at(s, 11), pair_at(s, 13))
}

// A DATE: its midnight.
pub fn read_date(s: &[u8]) -> Option<DateTime>
    ensures { result ≡ read_date s.now }
{
    if s.len() != 8 {
        return None;
    }
    let day = date_at(s)?;
    Some(DateTime {
        kind: Kind::Date,
        clock: day * 86400,
    })
}

// The clock of the YYYYMMDDTHHMMSS at the start.
fn clock_at(kind: Kind, s: &[u8]) -> Option<DateTime>
    requires { 15 ≤ length s.now }
    ensures { result ≡ clock_at kind s.now }
{
    if ascii::upper(s[8]) != 84 {
        return None;
    }
    let day = date_at(s)?;
    let second = time_at(s)?;
    Some(DateTime {
        kind,
        clock: day * 86400 + second,
    })
}

// A DATE-TIME: UTC with Z at its end, else floating. The clock is read in one place, so that its reader is compiled into this one.
pub fn read_date_time(s: &[u8]) -> Option<DateTime>
    ensures { result ≡ read_date_time s.now }
{
    let mut kind = Kind::Floating;
    if s.len() == 16 {
        if ascii::upper(s[15]) != 90 {
            return None;
        }
        kind = Kind::Utc;
    } else if s.len() != 15 {
        return None;
    }
    clock_at(kind, s)
}
