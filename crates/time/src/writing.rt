// Writing a second as a UTC DATE-TIME, straight into the output.
// Sixteen bytes, whatever the second.
ghost use Rattle.std.specs.Prelude.{◌≡◌, ◌+◌, ◌≤◌, ◌<◌, length};
ghost use Rattle.std.proofs.lemmas.List.Edits.{sets};
ghost use Rattle.time.specs.Days.{year_in};
ghost use Rattle.time.specs.Limits.{last_second};
ghost use Rattle.time.specs.Writing.{month_in, day_of, date_text, time_text, utc_text};

use crate::days;
use ascii::copying::copy_over;

// A day of the calendar.
#[derive(Clone, Copy)]
pub struct Day {
    pub year: u64,
    pub month: u64,
    pub day: u64,
}

// Writes src at a place.
pub fn put_bytes(out: &mut [u8], at: usize, src: &[u8])
    requires { at + length src.now ≤ length out.old }
    ensures { out.new ≡ sets out.old at src.now }
{
    copy_over(&mut out[at..at + src.len()], src);
}

// The month that has begun last after n days of a year, a day being 67 / 2048 of a month.
fn month_in(leap: bool, n: u64) -> u64
    requires { n < year_in leap }
    ensures { result ≡ month_in leap n }
{
    if n < 59 {
        return (67 * n + 2048) / 2048;
    }
    if leap {
        return (67 * n + 2148) / 2048;
    }
    (67 * n + 2215) / 2048
}

// The day that is d days after 1 January 1970, up to the last of 2099: until then any four years have 1,461 days.
fn day_of(d: u64) -> Day
    requires { d ≤ 47481 }
    ensures { result ≡ day_of d }
{
    let quarters = 4 * d + 2;
    let year = 1970 + quarters / 1461;
    let n = quarters % 1461 / 4;
    let leap = year % 4 == 0;
    let month = month_in(leap, n);
    let day = n - days::before_in(leap, month) + 1;
    Day { year, month, day }
}

// YYYYMMDD and T.
fn put_date(out: &mut [u8], at: usize, d: Day)
    requires { at + 9 ≤ length out.old }
    ensures { out.new ≡ sets out.old at (date_text d) }
{
    let c = d.year / 100;
    let y = d.year % 100;
    let text = [
        (48 + c / 10 % 10) as u8,
        (48 + c % 10) as u8,
        (48 + y / 10 % 10) as u8,
        (48 + y % 10) as u8,
        (48 + d.month / 10 % 10) as u8,
        (48 + d.month % 10) as u8,
        (48 + d.day / 10 % 10) as u8,
        (48 + d.day % 10) as u8,
        84u8,
    ];
    put_bytes(out, at, &text);
}

// HHMMSS and Z of a second of a day.
fn put_time(out: &mut [u8], at: usize, s: u64)
    requires { at + 7 ≤ length out.old }
    ensures { out.new ≡ sets out.old at (time_text s) }
{
    let h = s / 3600;
    let m = s / 60 % 60;
    let n = s % 60;
    let text = [
        (48 + h / 10 % 10) as u8,
        (48 + h % 10) as u8,
        (48 + m / 10 % 10) as u8,
        (48 + m % 10) as u8,
        (48 + n / 10 % 10) as u8,
        (48 + n % 10) as u8,
        90u8,
    ];
    put_bytes(out, at, &text);
}

// The sixteen bytes of a second within the limits, so of 32 bits: the compiler then knows how short each number is.
// The bound stays in the contract: docs/TRACE.md names this function, and its argument may not change.
pub fn write_utc(out: &mut [u8], at: usize, t: u64)
    requires { (at + 16 ≤ length out.old) × (t ≤ last_second) }
    ensures { out.new ≡ sets out.old at (utc_text t) }
{
    let second = (t as u32) as u64;
    put_date(out, at, day_of(second / 86400));
    put_time(out, at + 9, second % 86400);
}
