// What a line of a time zone says, by where in the zone it stands.
// Which properties of a zone are read is decided here alone.
#![tactic(auto)]

pub mod part;

ghost use Rattle.std.specs.Prelude.{◌≡◌, length};
ghost use Rattle.line.specs.Reading.{name_of, line_of, value_of};
ghost use Rattle.zone_properties.specs.ZoneProperties.{part_property, zone_property_of, zone_value_as, zone_value_of};

use values::rule::ValueError;
use zone_values::zone_rule::ZoneRule;
use zone_values::{offset, onset, zone_rule};

// What a line stands directly in: a VTIMEZONE right below VCALENDAR, a STANDARD or DAYLIGHT part directly in such a zone, or anything else.
#[derive(Clone, Copy)]
pub enum ZoneScope {
    Zone,
    Part,
    Other,
}

// The properties that are read, each directly in the zone or in a part of it.
#[derive(Clone, Copy)]
pub enum ZoneProperty {
    Tzid,
    Start,
    From,
    To,
    Rule,
    // RDATE, refused in a part.
    Dates,
}

// What a line says that is read.
#[derive(Clone, Copy)]
pub enum ZoneValue {
    // TZID: its bytes are read in place.
    Tzid,
    // DTSTART, by its own clock.
    Onset(u64),
    // TZOFFSETFROM and TZOFFSETTO, as 86,400 more than the offset.
    From(u64),
    To(u64),
    Rule(ZoneRule),
}

// In a part, by the name of the line, which is n bytes long: only words of that length are compared.
// No TryFrom<&[u8]>: what a name is depends on where the line stands, and in the zone itself none of these is read.
#[tactic(auto, unfolding(crate::specs::ZoneProperties::part_property))]
fn part_property(line: &[u8], n: usize) -> Option<ZoneProperty>
    requires { n ≡ length (name_of line.now) }
    ensures { result ≡ part_property (name_of line.now) }
{
    if line::read::is_called(line, n, b"DTSTART") {
        return Some(ZoneProperty::Start);
    }
    if line::read::is_called(line, n, b"TZOFFSETFROM") {
        return Some(ZoneProperty::From);
    }
    if line::read::is_called(line, n, b"TZOFFSETTO") {
        return Some(ZoneProperty::To);
    }
    if line::read::is_called(line, n, b"RRULE") {
        return Some(ZoneProperty::Rule);
    }
    if line::read::is_called(line, n, b"RDATE") {
        return Some(ZoneProperty::Dates);
    }
    None
}

// The property that the line is, where it stands.
#[tactic(auto, unfolding(crate::specs::ZoneProperties::zone_property_of))]
fn zone_property(scope: ZoneScope, line: &[u8], n: usize) -> Option<ZoneProperty>
    requires { n ≡ length (name_of line.now) }
    ensures { result ≡ zone_property_of scope (name_of line.now) }
{
    match scope {
        ZoneScope::Zone => line::read::is_called(line, n, b"TZID").then_some(ZoneProperty::Tzid),
        ZoneScope::Part => part_property(line, n),
        ZoneScope::Other => None,
    }
}

// What a line as the property, with the value v, says.
// There is no table of readers, since each answers its own type.
#[tactic(auto, unfolding(crate::specs::ZoneProperties::zone_value_as, line::specs::Reading::line_of))]
fn value_as(property: ZoneProperty, line: &[u8], v: &[u8]) -> Result<ZoneValue, ValueError>
    requires { v.now ≡ value_of line.now }
    ensures { result ≡ zone_value_as property (line_of line.now) }
{
    match property {
        ZoneProperty::Tzid => Ok(ZoneValue::Tzid),
        ZoneProperty::Start => {
            let clock = onset::read_onset(line, v).ok_or(ValueError::Bad)?;
            Ok(ZoneValue::Onset(clock))
        }
        ZoneProperty::From => {
            let offset = offset::read_offset(v).ok_or(ValueError::Bad)?;
            Ok(ZoneValue::From(offset))
        }
        ZoneProperty::To => {
            let offset = offset::read_offset(v).ok_or(ValueError::Bad)?;
            Ok(ZoneValue::To(offset))
        }
        ZoneProperty::Rule => {
            let rule = zone_rule::read_zone_rule(v).ok_or(ValueError::Unsupported)?;
            Ok(ZoneValue::Rule(rule))
        }
        ZoneProperty::Dates => Err(ValueError::Unsupported),
    }
}

// What a line, whose name is n bytes long, says where it stands. Where no rule reads it, its value is not looked for.
#[tactic(auto, unfolding(crate::specs::ZoneProperties::zone_value_of, line::specs::Reading::line_of))]
pub fn zone_value(scope: ZoneScope, line: &[u8], n: usize) -> Result<Option<ZoneValue>, ValueError>
    requires { n ≡ length (name_of line.now) }
    ensures { result ≡ zone_value_of scope (line_of line.now) }
{
    let Some(property) = zone_property(scope, line, n) else {
        return Ok(None);
    };
    let value = value_as(property, line, line::read::value_behind(line, n))?;
    Ok(Some(value))
}
