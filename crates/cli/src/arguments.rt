// What an argument means: a command, a second, an offset, a file name.
// Any bytes are read: as what they mean, or as none.
ghost use Rattle.std.specs.Prelude.{◌≡◌};
ghost use Rattle.cli.specs.Arguments.{command_of, with_digit, decimal_of, in_limits, utc_clock, utc_of, second_of, hours_minutes, clock_of, size_of, signed, with_sign, offset_of, is_hex_name};

use time::date_time::Kind;

#[derive(Clone, Copy, Debug, PartialEq, Eq)]
pub enum Command {
    Report,
    Verify,
    Match,
    Batch,
}

// What a report is asked for.
#[derive(Clone, Copy, Debug, PartialEq, Eq)]
pub struct Plan {
    pub start: u64,
    pub end: u64,
    pub offset: i64,
    pub stamp: u64,
}

// No TryFrom, which would want an error type: of a word that is no command there is no more to say.
#[tactic(auto, unfolding(crate::specs::Arguments::command_of))]
pub fn command_of(word: &[u8]) -> Option<Command>
    ensures { result ≡ command_of word.now }
{
    if ascii::same_name(word, b"report") {
        return Some(Command::Report);
    }
    if ascii::same_name(word, b"verify") {
        return Some(Command::Verify);
    }
    if ascii::same_name(word, b"match") {
        return Some(Command::Match);
    }
    if ascii::same_name(word, b"batch") {
        return Some(Command::Batch);
    }
    None
}

// The number with one more digit, where 64 bits hold it.
#[tactic(auto, unfolding(crate::specs::Arguments::with_digit, crate::specs::Arguments::decimal_onto, crate::specs::Arguments::onto, crate::specs::Arguments::most))]
fn with_digit(n: u64, b: u8) -> Option<u64>
    ensures { result ≡ with_digit n b }
{
    if !b.is_ascii_digit() {
        return None;
    }
    n.checked_mul(10)?.checked_add(u64::from(b - b'0'))
}

// Decimal digits, one or more, that 64 bits hold.
pub fn decimal_of(text: &[u8]) -> Option<u64>
    ensures { result ≡ decimal_of text.now }
{
    if text.is_empty() {
        return None;
    }
    let mut n = 0;
    for &b in text {
        n = with_digit(n, b)?;
    }
    Some(n)
}

#[tactic(auto, unfolding(crate::specs::Arguments::in_limits))]
fn in_limits(t: Option<u64>) -> Option<u64>
    ensures { result ≡ in_limits t }
{
    match t {
        Some(s) => Some(s),
        None => None,
    }
}

// The second of a UTC clock.
// Not one with `zone_values::onset::floating_only`: they share the test of the kind alone, and here the second is reckoned from the clock, within the limits.
#[tactic(auto, unfolding(crate::specs::Arguments::utc_clock))]
fn utc_clock(kind: Kind, clock: u64) -> Option<u64>
    ensures { result ≡ utc_clock kind clock }
{
    match kind {
        Kind::Utc => in_limits(time::limits::utc_second(kind, clock, 50400)),
        Kind::Floating => None,
        Kind::Date => None,
    }
}

// A UTC DATE-TIME within the limits.
#[tactic(auto, unfolding(crate::specs::Arguments::utc_of, crate::specs::Arguments::utc_read))]
fn utc_of(text: &[u8]) -> Option<u64>
    ensures { result ≡ utc_of text.now }
{
    let read = time::date_time::read_date_time(text)?;
    utc_clock(read.kind, read.clock)
}

// Seconds in decimal, or a UTC DATE-TIME.
#[tactic(auto, unfolding(crate::specs::Arguments::second_of, crate::specs::Arguments::or_else))]
pub fn second_of(text: &[u8]) -> Option<u64>
    ensures { result ≡ second_of text.now }
{
    decimal_of(text).or_else(|| utc_of(text))
}

// Hours and minutes as seconds.
#[tactic(auto, unfolding(crate::specs::Arguments::hours_minutes))]
fn hours_minutes(h: u64, m: u64) -> Option<u64>
    ensures { result ≡ hours_minutes (Some h) (Some m) }
{
    if 99 < h || 59 < m {
        return None;
    }
    Some(h * 3600 + m * 60)
}

// HH:MM as seconds.
#[tactic(auto, unfolding(crate::specs::Arguments::clock_of, crate::specs::Arguments::hours_minutes))]
fn clock_of(text: &[u8]) -> Option<u64>
    ensures { result ≡ clock_of text.now }
{
    if text.len() != 5 || text[2] != b':' {
        return None;
    }
    hours_minutes(decimal_of(&text[0..2])?, decimal_of(&text[3..5])?)
}

// Seconds in decimal, or HH:MM.
#[tactic(auto, unfolding(crate::specs::Arguments::size_of, crate::specs::Arguments::or_else))]
fn size_of(text: &[u8]) -> Option<u64>
    ensures { result ≡ size_of text.now }
{
    decimal_of(text).or_else(|| clock_of(text))
}

// A number and its sign, where 64 bits hold it.
#[tactic(auto, unfolding(crate::specs::Arguments::signed, crate::specs::Arguments::most_signed))]
fn signed(minus: bool, n: u64) -> Option<i64>
    ensures { result ≡ signed minus n }
{
    if minus {
        0i64.checked_sub_unsigned(n)
    } else {
        0i64.checked_add_unsigned(n)
    }
}

#[tactic(auto, unfolding(crate::specs::Arguments::with_sign))]
fn with_sign(minus: bool, size: &[u8]) -> Option<i64>
    ensures { result ≡ with_sign minus (size_of size.now) }
{
    signed(minus, size_of(size)?)
}

// An optional sign, and seconds in decimal or HH:MM.
#[tactic(auto, unfolding(crate::specs::Arguments::offset_of))]
pub fn offset_of(text: &[u8]) -> Option<i64>
    ensures { result ≡ offset_of text.now }
{
    match text {
        [] => None,
        [b'-', size @ ..] => with_sign(true, size),
        [b'+', size @ ..] => with_sign(false, size),
        _ => with_sign(false, text),
    }
}

// Does the name end in .hex?
pub fn is_hex_name(name: &[u8]) -> bool
    ensures { result ≡ is_hex_name name.now }
{
    let n = name.len();
    if n < 4 {
        return false;
    }
    ascii::same_name(&name[n - 4..n], b".hex")
}
