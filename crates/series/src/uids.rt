// Which UIDs an event has. One UID is the value of a line that its link names;
// where it has several, its lines are read again.
ghost use Rattle.std.specs.Prelude.{◌≡◌, ◌-◌, ◌≤◌, length};
ghost use Rattle.ascii.specs.Names.{same_bytes};
ghost use Rattle.text.specs.Lines.{content_lines};
ghost use Rattle.line.specs.Reading.{line_of, value_of};
ghost use Rattle.values.specs.Times.{ContextGood};
ghost use Rattle.nesting.specs.Components.{properties_in};
ghost use Rattle.index.specs.Index.{line_bytes, Entry, Indexed};
ghost use Rattle.structure.specs.Rows.{RowOf, component_by};
ghost use Rattle.overrides.specs.VEvents.{has_uid};
ghost use Rattle.calendar.specs.Meaning.{vevent_of};
ghost use Rattle.property.specs.Facts.{reading_of};
ghost use Rattle.series.specs.Uids.{is_uid, line_has, lines_have, UidsKnown};

use line::read;
use property::{PropertyValue, Scope};
use structure::calendar::Calendar;
use structure::items::Item;
use values::given::Given;
use values::rule::ValueError;
use values::times::Context;

// The value of the line of number n.
pub fn uid_at<'a>(cal: &Calendar<'a>, n: usize) -> &'a [u8]
    requires indexed { Indexed cal.now.text.now cal.now.index.now }
    requires le_n { (1 ≤ n) × (n ≤ length (content_lines cal.now.text.now)) }
    ensures { result.now ≡ value_of (line_bytes cal.now.text.now (n - 1)) }
{
    let line = cal.line_at(n - 1);
    read::value_behind(line, cal.name_length(n - 1))
}

// Are the two the same bytes?
fn same_bytes(a: &[u8], b: &[u8]) -> bool
    ensures { result ≡ same_bytes a.now b.now }
{
    a == b
}

fn is_uid(v: Result<PropertyValue, ValueError>) -> bool
    ensures { result ≡ is_uid (reading_of v) }
{
    match v {
        Ok(PropertyValue::Nothing) => false,
        Err(ValueError::Unsupported) => false,
        Err(ValueError::Bad) => false,
        Ok(PropertyValue::Start(_)) => false,
        Ok(PropertyValue::End(_)) => false,
        Ok(PropertyValue::Lasts(_)) => false,
        Ok(PropertyValue::Repeats(_)) => false,
        Ok(PropertyValue::HasStatus(_)) => false,
        Ok(PropertyValue::Transparent(_)) => false,
        Ok(PropertyValue::Uid) => true,
        Ok(PropertyValue::RecurrenceId(_)) => false,
        Ok(PropertyValue::HasExceptions(_)) => false,
        Ok(PropertyValue::HasPeriods(_)) => false,
    }
}

// Is line i, directly in an event, a UID with these bytes?
fn line_has(cal: &Calendar, i: usize, c: Context, u: &[u8]) -> bool
    requires context_good { ContextGood c }
    requires entry { Entry cal.now.text.now cal.now.index.now i }
    ensures { result ≡ line_has c u.now (line_of (line_bytes cal.now.text.now i)) }
{
    let line = cal.line_at(i);
    let length = cal.name_length(i);
    if is_uid(property::property_value(c, Scope::Event, line, length)) {
        return same_bytes(u, read::value_behind(line, length));
    }
    false
}

// Is one of the lines directly in the event of row k a UID with these bytes?
fn lines_have(cal: &Calendar, k: usize, c: Context, u: &[u8]) -> bool
    requires context_good { ContextGood c }
    requires indexed { Indexed cal.now.text.now cal.now.index.now }
    requires row_of { RowOf cal.now.text.now cal.now.rows.now k }
    ensures { result ≡ lines_have c u.now (properties_in (component_by cal.now.text.now cal.now.rows.now k).items) }
{
    let stop = cal.line_behind(k) - 1;
    let last = cal.next_row(k);
    let mut i = cal.first_line(k);
    let mut row = k + 1;
    // A `loop`: a step passes over one line or a whole component, as the item read says.
    loop {
        match cal.item_at(i, row, stop, last) {
            Item::Property => {
                if line_has(cal, i, c, u) {
                    return true;
                }
                i += 1;
            }
            Item::Inner(next, after) => {
                i = next;
                row = after;
            }
            Item::Done => return false,
        }
    }
}

// Has the event of row k a UID with these bytes?
pub fn has_uid(cal: &Calendar, links: &[u32], k: usize, c: Context, u: &[u8]) -> bool
    requires { UidsKnown c cal.now.text.now cal.now.index.now cal.now.rows.now links.now k }
    ensures { result ≡ has_uid u.now (vevent_of c (component_by cal.now.text.now cal.now.rows.now k)) }
{
    let link = identities::rows::link_at(links, k);
    let uid = link.uid;
    match uid {
        Given::None => false,
        Given::One(n) => same_bytes(u, uid_at(cal, n)),
        Given::Several => lines_have(cal, k, c, u),
    }
}
