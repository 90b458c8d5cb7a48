// The RRULE of a part of a time zone: a month, a weekday, and the how manieth of them the day is.
// No other rule is supported, and none is bad: whatever is not of this form is refusal 8.
ghost use Rattle.std.specs.Prelude.{◌≡◌};
ghost use Rattle.zone_values.specs.ZoneRule.{short_number, weekday_of, day_after, day_part, begins, zone_part};
ghost use Rattle.zone_values.specs.ZoneRule.{dated, in_any_order, read_zone_rule};

use line::split;
use values::rule;

// The onsets of a rule: each year, in the month, one of its days of that name.
#[derive(Clone, Copy)]
pub struct ZoneRule {
    // 1 to 12.
    pub month: u64,
    pub day: ZoneDay,
}

// The day of BYDAY.
#[derive(Clone, Copy)]
pub struct ZoneDay {
    // How many days of that name come before it: 0 to 4.
    pub others: u64,
    // Is it counted from the month's end?
    pub back: bool,
    // 0 for Sunday to 6 for Saturday.
    pub weekday: u64,
}

// One part of the value that is read.
#[derive(Clone, Copy)]
pub enum ZonePart {
    Yearly,
    Month(u64),
    Day(ZoneDay),
}

// The number of one or two digits, from 1 to the given one.
#[tactic(auto, unfolding(crate::specs::ZoneRule::short_number))]
fn short_number(most: u64, s: &[u8]) -> Option<u64>
    ensures { result ≡ short_number most s.now }
{
    if 2 < s.len() {
        return None;
    }
    rule::number_to(most, s)
}

// The weekday that two letters name: its number, which a row holds and WeekdayIs says, so that TryFrom for an enum would be no plainer.
#[tactic(auto, unfolding(crate::specs::ZoneRule::weekday_of, crate::specs::ZoneRule::later_weekday))]
fn weekday_of(w: &[u8]) -> Option<u64>
    ensures { result ≡ weekday_of w.now }
{
    if ascii::same_name(w, b"SU") {
        return Some(0);
    }
    if ascii::same_name(w, b"MO") {
        return Some(1);
    }
    if ascii::same_name(w, b"TU") {
        return Some(2);
    }
    if ascii::same_name(w, b"WE") {
        return Some(3);
    }
    if ascii::same_name(w, b"TH") {
        return Some(4);
    }
    if ascii::same_name(w, b"FR") {
        return Some(5);
    }
    if ascii::same_name(w, b"SA") {
        return Some(6);
    }
    None
}

// Behind the sign: digits, and two letters.
#[tactic(auto, unfolding(crate::specs::ZoneRule::day_after, crate::specs::ZoneRule::day_by))]
fn day_after(back: bool, t: &[u8]) -> Option<ZoneDay>
    ensures { result ≡ day_after back t.now }
{
    if t.len() < 2 {
        return None;
    }
    let e = t.len() - 2;
    let number = short_number(5, &t[..e])?;
    let weekday = weekday_of(&t[e..])?;
    Some(ZoneDay {
        others: number - 1,
        back,
        weekday,
    })
}

// The value of BYDAY, with a sign or without.
#[tactic(auto, unfolding(crate::specs::ZoneRule::day_part))]
fn day_part(t: &[u8]) -> Option<ZoneDay>
    ensures { result ≡ day_part t.now }
{
    if t.is_empty() {
        return None;
    }
    let sign = t[0];
    if sign == 45 {
        return day_after(true, &t[1..]);
    }
    if sign == 43 {
        return day_after(false, &t[1..]);
    }
    day_after(false, t)
}

// Does the text begin with the name, ASCII case disregarded?
#[tactic(auto, unfolding(crate::specs::ZoneRule::begins))]
fn begins(t: &[u8], name: &[u8]) -> bool
    ensures { result ≡ begins name.now t.now }
{
    let n = name.len();
    if t.len() < n {
        return false;
    }
    ascii::same_name(&t[..n], name)
}

// One part of the value.
// There is no table of readers, since each answers its own type.
#[tactic(auto, unfolding(crate::specs::ZoneRule::zone_part))]
fn zone_part(t: &[u8]) -> Option<ZonePart>
    ensures { result ≡ zone_part t.now }
{
    if ascii::same_name(t, b"FREQ=YEARLY") {
        return Some(ZonePart::Yearly);
    }
    if begins(t, b"BYMONTH=") {
        let month = short_number(12, &t[8..])?;
        return Some(ZonePart::Month(month));
    }
    if begins(t, b"BYDAY=") {
        let day = day_part(&t[6..])?;
        return Some(ZonePart::Day(day));
    }
    None
}

// A month and a day, in either order.
#[tactic(auto, unfolding(crate::specs::ZoneRule::dated, crate::specs::ZoneRule::with_day, crate::specs::ZoneRule::with_month))]
fn dated(x: ZonePart, y: ZonePart) -> Option<ZoneRule>
    ensures { result ≡ dated x y }
{
    match (x, y) {
        (ZonePart::Month(month), ZonePart::Day(day)) => Some(ZoneRule { month, day }),
        (ZonePart::Day(day), ZonePart::Month(month)) => Some(ZoneRule { month, day }),
        _ => None,
    }
}

// FREQ=YEARLY, a month and a day, in any order.
#[tactic(auto, unfolding(crate::specs::ZoneRule::in_any_order, crate::specs::ZoneRule::is_yearly))]
fn in_any_order(x: ZonePart, y: ZonePart, z: ZonePart) -> Option<ZoneRule>
    ensures { result ≡ in_any_order x y z }
{
    match (x, y, z) {
        (ZonePart::Yearly, _, _) => dated(y, z),
        (_, ZonePart::Yearly, _) => dated(x, z),
        (_, _, ZonePart::Yearly) => dated(x, y),
        _ => None,
    }
}

// The rule of a value, its parts cut at each semicolon.
#[tactic(auto, unfolding(crate::specs::ZoneRule::read_zone_rule, line::specs::Splitting::plain_split))]
pub fn read_zone_rule(v: &[u8]) -> Option<ZoneRule>
    ensures { result ≡ read_zone_rule v.now }
{
    if split::part_count(v, 59, false) != 3 {
        return None;
    }
    let first = zone_part(split::nth_part(v, 59, false, 0))?;
    let second = zone_part(split::nth_part(v, 59, false, 1))?;
    let third = zone_part(split::nth_part(v, 59, false, 2))?;
    in_any_order(first, second, third)
}
