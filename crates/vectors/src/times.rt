// Worked examples of DATE, DATE-TIME and DURATION values.
// A time that was read is written again where it can be.
ghost use Rattle.std.specs.Prelude.{◌≤◌};
ghost use Rattle.time.specs.Limits.{last_second};

use std::io;
use time::date_time::{DateTime, Kind};

// The second of a clock, or that it is outside the limits.
fn show_second(rt: &impl Print, kind: Kind, clock: u64, shift: u64) -> io::Result<()>
    requires { shift ≤ 100800 }
{
    match time::limits::utc_second(kind, clock, shift) {
        Some(t) => rt.print(t),
        None => rt.write_all(b"outside"),
    }
}

// Its name and the blank that follows.
fn name_of(kind: Kind) -> &'static [u8] {
    match kind {
        Kind::Utc => b"utc ",
        Kind::Floating => b"floating ",
        Kind::Date => b"date ",
    }
}

pub fn show_time(rt: &impl Print, read: Option<DateTime>, shift: u64) -> io::Result<()>
    requires { shift ≤ 100800 }
{
    match read {
        Some(DateTime { kind, clock }) => {
            rt.write_all(name_of(kind))?;
            show_second(rt, kind, clock, shift)
        }
        None => rt.write_all(b"bad"),
    }
}

pub fn show_duration(rt: &impl Print, text: &[u8]) -> io::Result<()> {
    match time::duration::read_duration(text) {
        Some(d) => {
            rt.print(d.days)?;
            rt.write_all(b" days ")?;
            rt.print(d.seconds)?;
            rt.write_all(if d.timed {
                b" seconds, timed"
            } else {
                b" seconds"
            })
        }
        None => rt.write_all(b"bad"),
    }
}

fn show_written(rt: &impl Print, t: u64) -> io::Result<()>
    requires { t ≤ last_second }
{
    let mut out = [0u8; 16];
    time::writing::write_utc(&mut out, 0, t);
    rt.write_all(&out)
}

// The value read, written and shown again.
pub fn write_again(rt: &impl Print, text: &[u8]) -> io::Result<()> {
    match time::date_time::read_date_time(text) {
        Some(DateTime { kind, clock }) => match time::limits::utc_second(kind, clock, 50400) {
            Some(t) => show_written(rt, t),
            None => rt.write_all(b"outside"),
        },
        None => rt.write_all(b"bad"),
    }
}
