// A DATE or DATE-TIME value within the limits, by the offset.
// What is needed besides the text of a value is its context.
ghost use Rattle.std.specs.Prelude.{◌≡◌};
ghost use Rattle.line.specs.Reading.{line_of};
ghost use Rattle.values.specs.Times.{utc_of, time_by, read_time, form_named, form_of, utc_only, ContextGood};

use time::date_time::{DateTime, Kind};
use time::{date_time, limits};

// What values are read by: today the offset, as 50,400 more than it.
// ContextGood stays in the contracts: read_time, rule_of and store_times, which docs/TRACE.md names, take any Context.
#[derive(Clone, Copy)]
pub struct Context {
    pub shift: u64,
}

// A time within the limits: its kind, its own wall clock in seconds since 00000101T000000, and its UTC second.
#[derive(Clone, Copy)]
pub struct Time {
    pub kind: Kind,
    pub clock: u64,
    pub second: u64,
}

// The form that the parameter VALUE asks for. Wrong stays a form: read_time, which docs/TRACE.md names, takes it.
#[derive(Clone, Copy)]
pub enum Form {
    DateTime,
    Date,
    Wrong,
}

// The form that a word names, ASCII case disregarded. It is no TryFrom, since every word has a form.
fn form_named(w: &[u8]) -> Form
    ensures { result ≡ form_named w.now }
{
    if ascii::same_name(w, b"DATE") {
        return Form::Date;
    }
    if ascii::same_name(w, b"DATE-TIME") {
        return Form::DateTime;
    }
    Form::Wrong
}

// The form that a line asks for: VALUE twice or as a list is wrong.
pub fn form_of(line: &[u8]) -> Form
    ensures { result ≡ form_of (line_of line.now) }
{
    let u = line::read::usage_of(line, b"VALUE");
    let times = u.times;
    let listed = u.listed;
    if (1 < times) | listed {
        return Form::Wrong;
    }
    if 0 < times {
        return form_named(line::read::first_value(line, b"VALUE"));
    }
    Form::DateTime
}

// The second of a wall clock.
pub fn utc_of(c: Context, kind: Kind, clock: u64) -> Option<u64>
    requires { ContextGood c }
    ensures { result ≡ utc_of c kind clock }
{
    let shift = c.shift;
    limits::utc_second(kind, clock, shift)
}

fn time_by(c: Context, read: Option<DateTime>) -> Option<Time>
    requires { ContextGood c }
    ensures { result ≡ time_by c read }
{
    let DateTime { kind, clock } = read?;
    let second = utc_of(c, kind, clock)?;
    Some(Time {
        kind,
        clock,
        second,
    })
}

// A value of the form that is asked for.
pub fn read_time(c: Context, form: Form, s: &[u8]) -> Option<Time>
    requires { ContextGood c }
    ensures { result ≡ read_time c form s.now }
{
    match form {
        Form::DateTime => time_by(c, date_time::read_date_time(s)),
        Form::Date => time_by(c, date_time::read_date(s)),
        Form::Wrong => None,
    }
}

// A UTC time as it is, any other is bad.
// No one function over the kind with `cli::arguments::utc_clock` and `zone_values::onset::floating_only`: each answers another value, and one `if` is all that is shared.
pub fn utc_only(r: Option<Time>) -> Option<Time>
    ensures { result ≡ utc_only r }
{
    let t = r?;
    if t.kind == Kind::Utc { Some(t) } else { None }
}
