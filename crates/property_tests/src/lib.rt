// The property and parameter tests of a query on the lines directly in a component, by index and rows.
// Each function equals one definition of specs/.
#![tactic(auto)]

pub mod parameters;
pub mod texts;

ghost use Rattle.std.specs.Prelude.{◌≡◌, true, ◌<◌};
ghost use Rattle.line.specs.Reading.{line_of};
ghost use Rattle.nesting.specs.Components.{properties_in};
ghost use Rattle.index.specs.Index.{line_bytes, Entry, Indexed};
ghost use Rattle.structure.specs.Rows.{RowOf, component_by};
ghost use Rattle.query.specs.Records.{text_of, property_at};
ghost use Rattle.query_check.specs.WellFormed.{records_good};
ghost use Rattle.property_tests.specs.PropertyTests.{text_or, some_named, line_holds, some_line, property_holds, property_passes, properties_hold};

use line::read;
use query::{PropertyRecord, Query};
use structure::calendar::Calendar;
use structure::items::Item;

// Has some line of the component of row k the name?
fn some_named(name: &[u8], cal: &Calendar, k: usize) -> bool
    requires indexed { Indexed cal.now.text.now cal.now.index.now }
    requires row_of { RowOf cal.now.text.now cal.now.rows.now k }
    ensures { result ≡ some_named name.now (properties_in (component_by cal.now.text.now cal.now.rows.now k).items) }
{
    let mut i = cal.first_line(k);
    let mut row = k + 1;
    let stop = cal.line_behind(k) - 1;
    let end = cal.next_row(k);
    // A `loop`: a line is passed by one, an inner component by its rows.
    loop {
        match cal.item_at(i, row, stop, end) {
            Item::Property => {
                if cal.is_called(i, name) {
                    return true;
                }
                i += 1;
            }
            Item::Inner(next, after) => {
                i = next;
                row = after;
            }
            Item::Done => return false,
        }
    }
}

// Has line n the name, does its value hold up, and does it pass every parameter test? The texts of the record were looked up before.
fn line_holds(
    q: &Query,
    i: usize,
    r: PropertyRecord,
    name: &[u8],
    text: &[u8],
    cal: &Calendar,
    n: usize,
) -> bool
    requires q_value { records_good q.now.bytes.now q.now.sections ≡ true }
    requires name_value { name.now ≡ text_of q.now.bytes.now q.now.sections r.name }
    requires text_value { text.now ≡ text_or q.now.bytes.now q.now.sections r.text }
    requires entry { Entry cal.now.text.now cal.now.index.now n }
    ensures { result ≡ line_holds q.now.bytes.now q.now.sections i r (line_of (line_bytes cal.now.text.now n)) }
{
    if !cal.is_called(n, name) {
        return false;
    }
    let line = cal.line_at(n);
    let v = read::value_behind(line, cal.name_length(n));
    if texts::text_passes(r.text, text, r.collation, r.flag, v) {
        return parameters::parameters_hold(q, i, line);
    }
    false
}

// Does some line of the component of row k hold?
fn some_line(
    q: &Query,
    j: usize,
    r: PropertyRecord,
    name: &[u8],
    text: &[u8],
    cal: &Calendar,
    k: usize,
) -> bool
    requires q_value { records_good q.now.bytes.now q.now.sections ≡ true }
    requires name_value { name.now ≡ text_of q.now.bytes.now q.now.sections r.name }
    requires text_value { text.now ≡ text_or q.now.bytes.now q.now.sections r.text }
    requires indexed { Indexed cal.now.text.now cal.now.index.now }
    requires row_of { RowOf cal.now.text.now cal.now.rows.now k }
    ensures { result ≡ some_line q.now.bytes.now q.now.sections j r (properties_in (component_by cal.now.text.now cal.now.rows.now k).items) }
{
    let mut i = cal.first_line(k);
    let mut row = k + 1;
    let stop = cal.line_behind(k) - 1;
    let end = cal.next_row(k);
    // A `loop`: a line is passed by one, an inner component by its rows.
    loop {
        match cal.item_at(i, row, stop, end) {
            Item::Property => {
                if line_holds(q, j, r, name, text, cal, i) {
                    return true;
                }
                i += 1;
            }
            Item::Inner(next, after) => {
                i = next;
                row = after;
            }
            Item::Done => return false,
        }
    }
}

// Property record i on the component of row k; flag 1 asks that no line has the name.
// The flag is a number, as the record keeps it (`query`).
fn property_holds(q: &Query, i: usize, cal: &Calendar, k: usize) -> bool
    requires q_value { records_good q.now.bytes.now q.now.sections ≡ true }
    requires i_lt_count { i < q.now.sections.properties.count }
    requires indexed { Indexed cal.now.text.now cal.now.index.now }
    requires row_of { RowOf cal.now.text.now cal.now.rows.now k }
    ensures { result ≡ property_holds q.now.bytes.now q.now.sections i (property_at q.now.bytes.now q.now.sections i) (properties_in (component_by cal.now.text.now cal.now.rows.now k).items) }
{
    let r = q.property_at(i);
    let name = q.text_of(r.name);
    if r.flag == 1 {
        return !some_named(name, cal, k);
    }
    let text = texts::text_or(q, r.text);
    some_line(q, i, r, name, text, cal, k)
}

// Property record i, where it is one of component record j.
fn property_passes(q: &Query, j: usize, cal: &Calendar, k: usize, i: usize) -> bool
    requires q_value { records_good q.now.bytes.now q.now.sections ≡ true }
    requires i_lt_count { i < q.now.sections.properties.count }
    requires indexed { Indexed cal.now.text.now cal.now.index.now }
    requires row_of { RowOf cal.now.text.now cal.now.rows.now k }
    ensures { result ≡ property_passes q.now.bytes.now q.now.sections j (properties_in (component_by cal.now.text.now cal.now.rows.now k).items) i }
{
    let r = q.property_at(i);
    if r.component == j {
        property_holds(q, i, cal, k)
    } else {
        true
    }
}

// Every property test of component record j, on the component of row k.
pub fn properties_hold(q: &Query, j: usize, cal: &Calendar, k: usize) -> bool
    requires q_value { records_good q.now.bytes.now q.now.sections ≡ true }
    requires indexed { Indexed cal.now.text.now cal.now.index.now }
    requires row_of { RowOf cal.now.text.now cal.now.rows.now k }
    ensures { result ≡ properties_hold q.now.bytes.now q.now.sections j (properties_in (component_by cal.now.text.now cal.now.rows.now k).items) }
{
    for i in 0..q.sections.properties.count {
        if !property_passes(q, j, cal, k, i) {
            return false;
        }
    }
    true
}
