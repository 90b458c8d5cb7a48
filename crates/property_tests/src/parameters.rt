// The parameter tests of a query on one line.
// A name that stands twice on a line has the values of both.
ghost use Rattle.std.specs.Prelude.{◌≡◌, true, ◌&&◌, ◌≤◌, ◌<◌};
ghost use Rattle.line.specs.Reading.{is_named, values_of, values_named, line_of};
ghost use Rattle.query_check.specs.WellFormed.{records_good};
ghost use Rattle.property_tests.specs.PropertyTests.{some_passes, parameter_holds, parameter_passes, parameters_hold};

use crate::texts;
use line::{read, split};
use query::{ParameterRecord, Query};

// Does some value of a parameter hold up against the record's text? One pass, from comma to comma.
fn some_value(r: ParameterRecord, text: &[u8], p: &[u8]) -> bool
    ensures { result ≡ some_passes r text.now (values_of p.now) }
{
    let values = split::after(p, 61, true);
    let mut from: usize = 0;
    // A `loop`, and no `split`: a comma in quotes ends no value.
    loop {
        let e = split::find(values, from, 44, true);
        let v = split::quotes_off(&values[from..e]);
        if texts::text_passes(r.text, text, r.collation, r.flag, v) {
            return true;
        }
        if values.len() <= e {
            return false;
        }
        from = e + 1;
    }
}

// Has a parameter the name, and does some value of it hold up?
fn named_value(r: ParameterRecord, name: &[u8], text: &[u8], p: &[u8]) -> bool
    ensures { result ≡ (is_named name.now p.now && some_passes r text.now (values_of p.now)) }
{
    if read::is_named(p, name) {
        some_value(r, text, p)
    } else {
        false
    }
}

// Does some value of a parameter of the name hold up?
fn some_named(r: ParameterRecord, name: &[u8], text: &[u8], line: &[u8]) -> bool
    ensures { result ≡ some_passes r text.now (values_named name.now (line_of line.now).parameters) }
{
    let h = read::head(line);
    let mut at = split::find(h, 0, 59, true);
    // A `while`, and no `split`: a semicolon in quotes ends no parameter.
    while at < h.len() {
        let from = at + 1;
        let e = split::find(h, from, 59, true);
        if named_value(r, name, text, &h[from..e]) {
            return true;
        }
        at = e;
    }
    false
}

// A parameter test on one line: flag 1 asks that no parameter has the name.
// The flag is a number, as the record keeps it (`query`).
fn parameter_holds(q: &Query, line: &[u8], r: ParameterRecord) -> bool
    requires name_lt_count { r.name < q.now.sections.texts.count }
    requires text_le_count { r.text ≤ q.now.sections.texts.count }
    ensures { result ≡ parameter_holds q.now.bytes.now q.now.sections (line_of line.now) r }
{
    let n = r.name;
    let flag = r.flag;
    let name = q.text_of(n);
    if flag == 1 {
        return !read::has_parameter(line, name);
    }
    let t = r.text;
    let text = texts::text_or(q, t);
    some_named(r, name, text, line)
}

// Parameter record k, where it is one of property record i.
fn parameter_passes(q: &Query, i: usize, line: &[u8], k: usize) -> bool
    requires q_value { records_good q.now.bytes.now q.now.sections ≡ true }
    requires k_lt_count { k < q.now.sections.parameters.count }
    ensures { result ≡ parameter_passes q.now.bytes.now q.now.sections i (line_of line.now) k }
{
    let r = q.parameter_at(k);
    if r.property == i {
        parameter_holds(q, line, r)
    } else {
        true
    }
}

// Every parameter test of property record i.
pub fn parameters_hold(q: &Query, i: usize, line: &[u8]) -> bool
    requires { records_good q.now.bytes.now q.now.sections ≡ true }
    ensures { result ≡ parameters_hold q.now.bytes.now q.now.sections i (line_of line.now) }
{
    for k in 0..q.sections.parameters.count {
        if !parameter_passes(q, i, line, k) {
            return false;
        }
    }
    true
}
