// The value of RRULE: its parts, and the rule that they make.
// Every part is looked at before the answer, since an unsupported one goes before a bad one.
ghost use Rattle.std.specs.Prelude.{◌≡◌, ◌≤◌, max, Ok};
ghost use Rattle.values.specs.declared.rule.Part.{Part};
ghost use Rattle.values.specs.Times.{ContextGood};
ghost use Rattle.values.specs.Rule.{number_to, frequency_part, until_part, named_part, part_of};
ghost use Rattle.values.specs.Rule.{no_parts, with_part, rule_by, rule_of};

use crate::times;
use crate::times::{Context, Form, Time};
use line::split;

// How far a rule repeats.
#[derive(Clone, Copy)]
pub enum Limit {
    Forever,
    Count(u64),
    Until(Time),
}

// Every how many times how many days an instance starts, and how far that goes on.
#[derive(Clone, Copy)]
pub struct Rule {
    // 1 for DAILY, 7 for WEEKLY.
    pub days: u64,
    pub interval: u64,
    pub limit: Limit,
}

// What one part of a rule says.
#[derive(Clone, Copy)]
pub enum Part {
    Frequency(u64),
    Interval(u64),
    Limit(Limit),
}

// The parts read so far. Where a number is 0 its part has not been read.
// Two faults stay two flags: an Option<ValueError> would have the order of the two written at each part.
#[derive(Clone, Copy)]
pub struct Parts {
    pub unsupported: bool,
    pub bad: bool,
    pub days: u64,
    pub interval: u64,
    pub limit: Option<Limit>,
}

// Why a value is refused: refusal 8 or 9.
#[derive(Clone, Copy, PartialEq, Eq)]
pub enum ValueError {
    Unsupported,
    Bad,
}

// The number of one to four digits, from 1 to the given one.
pub fn number_to(most: u64, s: &[u8]) -> Option<u64>
    ensures { result ≡ number_to most s.now }
{
    if (s.len() < 1) | (4 < s.len()) {
        return None;
    }
    let mut n: u64 = 0;
    for &b in s {
        if !ascii::is_digit(b) {
            return None;
        }
        n = n * 10 + (u64::from(b) - 48);
    }
    if (n < 1) | (most < n) {
        return None;
    }
    Some(n)
}

// FREQ: any word but these two is unsupported. It is no TryFrom, since only FREQ has its word read so.
fn frequency_part(v: &[u8]) -> Result<Part, ValueError>
    ensures { result ≡ frequency_part v.now }
{
    if ascii::same_name(v, b"DAILY") {
        return Ok(Part::Frequency(1));
    }
    if ascii::same_name(v, b"WEEKLY") {
        return Ok(Part::Frequency(7));
    }
    Err(ValueError::Unsupported)
}

// UNTIL: eight bytes are a DATE, any other number of them a DATE-TIME.
fn until_part(c: Context, v: &[u8]) -> Result<Part, ValueError>
    requires { ContextGood c }
    ensures { result ≡ until_part c v.now }
{
    let form = if v.len() == 8 {
        Form::Date
    } else {
        Form::DateTime
    };
    let Some(t) = times::read_time(c, form, v) else {
        return Err(ValueError::Bad);
    };
    Ok(Part::Limit(Limit::Until(t)))
}

// A part by its name: any name but these four is unsupported. There is no table, since each reader answers its own type.
fn named_part(c: Context, name: &[u8], value: &[u8]) -> Result<Part, ValueError>
    requires { ContextGood c }
    ensures { result ≡ named_part c name.now value.now }
{
    if ascii::same_name(name, b"FREQ") {
        return frequency_part(value);
    }
    if ascii::same_name(name, b"INTERVAL") {
        let Some(n) = number_to(999, value) else {
            return Err(ValueError::Bad);
        };
        return Ok(Part::Interval(n));
    }
    if ascii::same_name(name, b"COUNT") {
        let Some(n) = number_to(9999, value) else {
            return Err(ValueError::Bad);
        };
        return Ok(Part::Limit(Limit::Count(n)));
    }
    if ascii::same_name(name, b"UNTIL") {
        return until_part(c, value);
    }
    Err(ValueError::Unsupported)
}

// A part: a name, the first equals sign and a value.
fn part_of(c: Context, s: &[u8]) -> Result<Part, ValueError>
    requires { ContextGood c }
    ensures { result ≡ part_of c s.now }
{
    let e = split::find(s, 0, 61, false);
    if s.len() <= e {
        return Err(ValueError::Bad);
    }
    let name = &s[..e];
    if ascii::is_name(name) {
        return named_part(c, name, &s[e + 1..]);
    }
    Err(ValueError::Bad)
}

fn no_parts() -> Parts
    ensures { result ≡ no_parts }
{
    Parts {
        unsupported: false,
        bad: false,
        days: 0,
        interval: 0,
        limit: None,
    }
}

// One part more: a second one of a name, or of COUNT and UNTIL, is bad.
fn with_part(p: Parts, x: Result<Part, ValueError>) -> Parts
    ensures { result ≡ with_part p x }
{
    let mut q = p;
    match x {
        Ok(part) => match part {
            Part::Frequency(d) => {
                q.bad = p.bad | (0 < p.days);
                q.days = d;
            }
            Part::Interval(n) => {
                q.bad = p.bad | (0 < p.interval);
                q.interval = n;
            }
            Part::Limit(l) => {
                q.bad = p.bad | p.limit.is_some();
                q.limit = Some(l);
            }
        },
        Err(error) => match error {
            ValueError::Unsupported => q.unsupported = true,
            ValueError::Bad => q.bad = true,
        },
    }
    q
}

// The rule that the parts make. Unsupported goes before bad.
fn rule_by(p: Parts) -> Result<Rule, ValueError>
    ensures { result ≡ rule_by p }
{
    let unsupported = p.unsupported;
    let bad = p.bad;
    if unsupported {
        return Err(ValueError::Unsupported);
    }
    if bad | (p.days == 0) {
        return Err(ValueError::Bad);
    }
    Ok(Rule {
        days: p.days,
        interval: p.interval.max(1),
        limit: p.limit.unwrap_or(Limit::Forever),
    })
}

// The rule of a value, its parts cut at each semicolon.
pub fn rule_of(c: Context, v: &[u8]) -> Result<Rule, ValueError>
    requires { ContextGood c }
    ensures { result ≡ rule_of c v.now }
{
    let parts = v
        .split(|&b| b == 59)
        .fold(no_parts(), |p, s| with_part(p, part_of(c, s)));
    rule_by(parts)
}
