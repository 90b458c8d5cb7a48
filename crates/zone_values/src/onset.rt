// The onset of a part of a time zone: DTSTART, a floating DATE-TIME by the clock before the change.
// It may be of any year, so its clock is answered, and no limit is asked.
ghost use Rattle.std.specs.Prelude.{◌≡◌, true};
ghost use Rattle.line.specs.Reading.{line_of, value_of};
ghost use Rattle.zone_values.specs.Onset.{floating_only, onset_by, onset_of};

use time::date_time;
use time::date_time::{DateTime, Kind};
use values::times;
use values::times::Form;

// A floating time as its clock, any other is bad.
fn floating_only(read: Option<DateTime>) -> Option<u64>
    ensures { result ≡ floating_only read }
{
    let DateTime { kind, clock } = read?;
    if kind == Kind::Floating {
        Some(clock)
    } else {
        None
    }
}

// A value of the form that is asked for: only a DATE-TIME will do.
#[tactic(auto, unfolding(crate::specs::Onset::onset_by))]
fn onset_by(form: Form, v: &[u8]) -> Option<u64>
    ensures { result ≡ onset_by form v.now }
{
    match form {
        Form::DateTime => floating_only(date_time::read_date_time(v)),
        Form::Date => None,
        Form::Wrong => None,
    }
}

// The onset that a line, whose value is v, gives. With TZID it is bad.
#[tactic(auto, unfolding(crate::specs::Onset::onset_of, line::specs::Reading::line_of))]
pub fn read_onset(line: &[u8], v: &[u8]) -> Option<u64>
    requires { v.now ≡ value_of line.now }
    ensures { result ≡ onset_of (line_of line.now) }
{
    if line::read::has_parameter(line, b"TZID") {
        return None;
    }
    onset_by(times::form_of(line), v)
}
