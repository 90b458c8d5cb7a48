// Is a query well formed (refusal 4), and does it ask for a time range where none can be (refusal 5)?
// Each function equals one definition of specs/.
// Flags, collations and the 0 for none are tested as the numbers that they are: it is asked here whether they may stand there.
// `records_good` stays a clause and makes no type of its own: docs/TRACE.md names functions that take a Query with it (`range_misplaced`, `property_tests::line_holds`).
// So does the bound of a record's name: docs/TRACE.md names those that ask it (`parent_good`, `component_misplaced`, `property_tests::parameters::parameter_holds`).
#![tactic(auto)]

ghost use Rattle.std.specs.Prelude.{◌≡◌, true, ◌<◌};
ghost use Rattle.query_check.specs.WellFormed.{range_record_good, name_good, has_child_component, has_property, has_parameter_record, parent_good, component_good};
ghost use Rattle.query_check.specs.WellFormed.{flag_good, property_good, parameter_good, ranges_good, components_good, properties_good};
ghost use Rattle.query_check.specs.WellFormed.{parameters_good, records_good, query_good, component_misplaced, components_misplaced};
ghost use Rattle.query_check.specs.WellFormed.{properties_misplaced, range_misplaced, query_read};

use query::{ComponentRecord, ParameterRecord, PropertyRecord, Query, Sections, place};
use time::limits;

// Why a query is refused: refusal 4 or 5.
#[derive(Clone, Copy, PartialEq, Eq)]
pub enum QueryError {
    Bad,
    Misplaced,
}

// Start before end, both within the limits.
fn range_record_good(q: &Query, i: usize) -> bool
    requires { i < q.now.sections.ranges.count }
    ensures { result ≡ range_record_good q.now.bytes.now q.now.sections i }
{
    let start = q.range_start(i);
    let end = q.range_end(i);
    (start < end) & (end <= limits::LAST_SECOND)
}

// The number of a text of one or more name bytes.
fn name_good(q: &Query, n: usize) -> bool
    ensures { result ≡ name_good q.now.bytes.now q.now.sections n }
{
    if n < q.sections.texts.count {
        ascii::is_name(q.text_of(n))
    } else {
        false
    }
}

// Is some component but the first a child of component i?
fn has_child_component(q: &Query, i: usize) -> bool
    ensures { result ≡ has_child_component q.now.bytes.now q.now.sections i }
{
    (0..q.sections.components.count).any(|k| {
        let r = q.component_at(k);
        (0 < k) & (r.parent == i)
    })
}

// Is some property one of component i?
fn has_property(q: &Query, i: usize) -> bool
    ensures { result ≡ has_property q.now.bytes.now q.now.sections i }
{
    (0..q.sections.properties.count).any(|k| q.property_at(k).component == i)
}

// Is some parameter one of property i?
fn has_parameter_record(q: &Query, i: usize) -> bool
    ensures { result ≡ has_parameter_record q.now.bytes.now q.now.sections i }
{
    (0..q.sections.parameters.count).any(|k| q.parameter_at(k).property == i)
}

// Component 0 stands for the calendar; any other has a smaller parent.
fn parent_good(q: &Query, i: usize, r: ComponentRecord) -> bool
    requires { r.name < q.now.sections.texts.count }
    ensures { result ≡ parent_good q.now.bytes.now q.now.sections i r }
{
    if i == 0 {
        (r.parent == 0) & ascii::same_name(q.text_of(r.name), b"VCALENDAR") & (r.flag == 0)
    } else {
        r.parent < i
    }
}

// Is component i as it must be?
fn component_good(q: &Query, i: usize, r: ComponentRecord) -> bool
    ensures { result ≡ component_good q.now.bytes.now q.now.sections i r }
{
    if !name_good(q, r.name) {
        return false;
    }
    let alone = (r.range == 0) & !(has_child_component(q, i) | has_property(q, i));
    (r.range <= q.sections.ranges.count)
        & (r.flag <= 1)
        & parent_good(q, i, r)
        & (!(r.flag == 1) | alone)
}

// Is-not-defined has no text, and negate has one.
fn flag_good(flag: usize, text: usize) -> bool
    ensures { result ≡ flag_good flag text }
{
    (flag <= 2) & (!(flag == 1) | (text == 0)) & (!(flag == 2) | (0 < text))
}

// Is property i as it must be?
fn property_good(q: &Query, i: usize, r: PropertyRecord) -> bool
    ensures { result ≡ property_good q.now.bytes.now q.now.sections i r }
{
    let refers = (r.component < q.sections.components.count)
        & name_good(q, r.name)
        & (r.range <= q.sections.ranges.count)
        & (r.text <= q.sections.texts.count);
    let alone = (r.range == 0) & !has_parameter_record(q, i);
    refers & (r.collation <= 1) & flag_good(r.flag, r.text) & (!(r.flag == 1) | alone)
}

// Is a parameter as it must be?
fn parameter_good(q: &Query, r: ParameterRecord) -> bool
    ensures { result ≡ parameter_good q.now.bytes.now q.now.sections r }
{
    (r.property < q.sections.properties.count)
        & name_good(q, r.name)
        & (r.text <= q.sections.texts.count)
        & (r.collation <= 1)
        & flag_good(r.flag, r.text)
}

// Every range, used or not.
fn ranges_good(q: &Query) -> bool
    ensures { result ≡ ranges_good q.now.bytes.now q.now.sections }
{
    (0..q.sections.ranges.count).all(|k| range_record_good(q, k))
}

// Every component.
fn components_good(q: &Query) -> bool
    ensures { result ≡ components_good q.now.bytes.now q.now.sections }
{
    (0..q.sections.components.count).all(|k| component_good(q, k, q.component_at(k)))
}

// Every property.
fn properties_good(q: &Query) -> bool
    ensures { result ≡ properties_good q.now.bytes.now q.now.sections }
{
    (0..q.sections.properties.count).all(|k| property_good(q, k, q.property_at(k)))
}

// Every parameter.
fn parameters_good(q: &Query) -> bool
    ensures { result ≡ parameters_good q.now.bytes.now q.now.sections }
{
    (0..q.sections.parameters.count).all(|k| parameter_good(q, q.parameter_at(k)))
}

// Every record of the query.
fn records_good(q: &Query) -> bool
    ensures { result ≡ records_good q.now.bytes.now q.now.sections }
{
    ranges_good(q) & components_good(q) & properties_good(q) & parameters_good(q)
}

// Is the query well formed? Where not, that is refusal 4.
fn query_good(s: &[u8]) -> bool
    ensures { result ≡ query_good s.now }
{
    let Some(sections) = place::sections_of(s) else {
        return false;
    };
    let good = records_good(&Query { bytes: s, sections });
    (s.len() <= 4096) & ((sections.end == s.len()) & good)
}

// Has a component a range, and is neither VEVENT nor VFREEBUSY?
fn component_misplaced(q: &Query, r: ComponentRecord) -> bool
    requires { r.name < q.now.sections.texts.count }
    ensures { result ≡ component_misplaced q.now.bytes.now q.now.sections r }
{
    let text = q.text_of(r.name);
    (0 < r.range) & !(ascii::same_name(text, b"VEVENT") | ascii::same_name(text, b"VFREEBUSY"))
}

// Is there a range on such a component?
fn components_misplaced(q: &Query) -> bool
    requires { records_good q.now.bytes.now q.now.sections ≡ true }
    ensures { result ≡ components_misplaced q.now.bytes.now q.now.sections }
{
    (0..q.sections.components.count).any(|k| component_misplaced(q, q.component_at(k)))
}

// Is there a range on a property?
fn properties_misplaced(q: &Query) -> bool
    ensures { result ≡ properties_misplaced q.now.bytes.now q.now.sections }
{
    (0..q.sections.properties.count).any(|k| 0 < q.property_at(k).range)
}

// Is there a time range where none can be? That is refusal 5.
fn range_misplaced(q: &Query) -> bool
    requires { records_good q.now.bytes.now q.now.sections ≡ true }
    ensures { result ≡ range_misplaced q.now.bytes.now q.now.sections }
{
    components_misplaced(q) | properties_misplaced(q)
}

// The sections of a query that has neither fault, or which fault it has.
pub fn read_query(s: &[u8]) -> Result<Sections, QueryError>
    ensures { result ≡ query_read s.now }
{
    if !query_good(s) {
        return Err(QueryError::Bad);
    }
    let Some(sections) = place::sections_of(s) else {
        return Err(QueryError::Bad);
    };
    if range_misplaced(&Query { bytes: s, sections }) {
        return Err(QueryError::Misplaced);
    }
    Ok(sections)
}
