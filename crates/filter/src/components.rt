// The component tests of a query, and the query on a whole file, by the rows of its components.
// The search is left at the first component and instance that pass; a record's children have higher numbers.
// `records_good`, Given, Here and the bound of a record's number stay clauses, and query, calendar and columns arguments of their own:
// docs/TRACE.md names `component_holds`, `children_hold` and `query_holds`, which take them so.
ghost use Rattle.std.specs.Prelude.{◌≡◌, true, ◌+◌, ◌-◌, ◌*◌, ◌≤◌, ◌<◌, get_or};
ghost use Rattle.ascii.specs.Names.{same_name};
ghost use Rattle.values.specs.Times.{ContextGood};
ghost use Rattle.nesting.specs.Files.{tree_in};
ghost use Rattle.index.specs.Index.{Indexed};
ghost use Rattle.structure.specs.Rows.{ComponentsAt, RowOf, FileRows, component_by, components_by};
ghost use Rattle.query.specs.Records.{text_of, component_at};
ghost use Rattle.query_check.specs.WellFormed.{records_good};
ghost use Rattle.contents.specs.EntryRows.{EntryRows};
ghost use Rattle.series.specs.Columns.{RemovedRows};
ghost use Rattle.filter.specs.Tests.{whole_of, some_component_named, children_hold, component_test, query_holds};
ghost use Rattle.filter.specs.Ranges.{Given, Here, Among, RowSmall};
ghost use Rattle.filter.specs.Trials.{component_fits, TrialOf, gone_from, Alone};

use crate::trials;
use crate::trials::Trial;
use line::read;
use query::Query;
use series::columns::RemovedColumn;
use structure::calendar::Calendar;
use values::times::Context;

// Has the component of row k the name? It stands on the BEGIN line.
fn is_called(name: &[u8], cal: &Calendar, k: usize) -> bool
    requires indexed { Indexed cal.now.text.now cal.now.index.now }
    requires row_of { RowOf cal.now.text.now cal.now.rows.now k }
    ensures { result ≡ same_name (component_by cal.now.text.now cal.now.rows.now k).begin.line.value name.now }
{
    let i = cal.first_line(k) - 1;
    ascii::same_name(read::value(cal.line_at(i)), name)
}

// Has some component the name, of those side by side from row `first` up to row `end`?
fn some_component_named(name: &[u8], cal: &Calendar, first: usize, end: usize) -> bool
    requires indexed { Indexed cal.now.text.now cal.now.index.now }
    requires components_at { ComponentsAt cal.now.text.now cal.now.rows.now first end }
    ensures { result ≡ some_component_named name.now (components_by cal.now.text.now cal.now.rows.now first end) }
{
    let mut k = first;
    // A `while`: a component is passed by its rows, as the row read says.
    while k < end {
        if is_called(name, cal, k) {
            return true;
        }
        k = cal.next_row(k);
    }
    false
}

// Component record j among the components side by side from row `first` up to row `end`.
// The record keeps its flag as a number: whether it may stand there is what `query_check` asks.
#[cycle(children_hold_component_holds_trial_here)]
fn component_holds(
    q: &Query,
    j: usize,
    cal: &Calendar,
    column: &[u64],
    removed: &RemovedColumn,
    first: usize,
    end: usize,
    c: Context,
) -> bool
    requires q_value { records_good q.now.bytes.now q.now.sections ≡ true }
    requires j_lt_count { j < q.now.sections.components.count }
    requires context_good { ContextGood c }
    requires given { Given c cal.now.text.now cal.now.index.now cal.now.rows.now column.now }
    requires removed_rows { RemovedRows c cal.now.text.now cal.now.rows.now removed.now.places.now removed.now.seconds.now (get_or cal.now.rows.now 2 0) }
    requires among { Among cal.now.text.now cal.now.rows.now first end }
    ensures { result ≡ component_test (whole_of c (tree_in cal.now.text.now)) q.now.bytes.now q.now.sections j (components_by cal.now.text.now cal.now.rows.now first end) }
{
    let r = q.component_at(j);
    let name = q.text_of(r.name);
    if r.flag == 1 {
        return !some_component_named(name, cal, first, end);
    }
    let mut row = first;
    // A `loop` with a label, left from inside: document 01 names this form for this search.
    'search: loop {
        if end <= row {
            return false;
        }
        let t = trial_here(q, j, name, cal, column, removed, row, c);
        let gone = removed.gone_at(row);
        let mut k = trials::first_tried(t);
        // A `while`: whether there is an instance k is asked of the trial each time.
        while trials::goes_on(t, k) {
            if trials::passes(t, gone, k) {
                break 'search;
            }
            k += 1;
        }
        row = cal.next_row(row);
    }
    true // left from inside
}

// What is tried of the component of row k: the range of component record j, where all else holds.
#[cycle(children_hold_component_holds_trial_here)]
fn trial_here(
    q: &Query,
    j: usize,
    name: &[u8],
    cal: &Calendar,
    column: &[u64],
    removed: &RemovedColumn,
    k: usize,
    c: Context,
) -> Trial
    requires q_value { records_good q.now.bytes.now q.now.sections ≡ true }
    requires j_lt_count { j < q.now.sections.components.count }
    requires name_value { name.now ≡ text_of q.now.bytes.now q.now.sections (component_at q.now.bytes.now q.now.sections j).name }
    requires context_good { ContextGood c }
    requires given { Given c cal.now.text.now cal.now.index.now cal.now.rows.now column.now }
    requires removed_rows { RemovedRows c cal.now.text.now cal.now.rows.now removed.now.places.now removed.now.seconds.now (get_or cal.now.rows.now 2 0) }
    requires here { Here cal.now.text.now cal.now.rows.now k }
    ensures { TrialOf (component_fits (whole_of c (tree_in cal.now.text.now)) q.now.bytes.now q.now.sections j (component_by cal.now.text.now cal.now.rows.now k)) (gone_from c cal.now.text.now cal.now.rows.now k) result }
{
    if alone_holds(q, j, name, cal, column, k) {
        if children_hold(q, j + 1, j, cal, column, removed, k, c) {
            let r = q.component_at(j);
            return trials::trial_of(q, r.range, cal, column, k, c);
        }
    }
    Trial::Once(false)
}

// Of the component records from number `from` on, do all those of this parent hold among the components directly in that of row k?
#[cycle(children_hold_component_holds_trial_here)]
fn children_hold(
    q: &Query,
    from: usize,
    parent: usize,
    cal: &Calendar,
    column: &[u64],
    removed: &RemovedColumn,
    k: usize,
    c: Context,
) -> bool
    requires q_value { records_good q.now.bytes.now q.now.sections ≡ true }
    requires from_le_count { from ≤ q.now.sections.components.count }
    requires context_good { ContextGood c }
    requires given { Given c cal.now.text.now cal.now.index.now cal.now.rows.now column.now }
    requires removed_rows { RemovedRows c cal.now.text.now cal.now.rows.now removed.now.places.now removed.now.seconds.now (get_or cal.now.rows.now 2 0) }
    requires here { Here cal.now.text.now cal.now.rows.now k }
    ensures { result ≡ children_hold (whole_of c (tree_in cal.now.text.now)) q.now.bytes.now q.now.sections (q.now.sections.components.count - from) parent (components_by cal.now.text.now cal.now.rows.now (k + 1) (get_or cal.now.rows.now (4 * k + 2) 0)) }
{
    let components = q.sections.components;
    let n = components.count;
    let inside = k + 1;
    let end = cal.next_row(k);
    let mut i = from;
    while i < n {
        let next = i + 1;
        let r = q.component_at(i);
        if r.parent == parent {
            if !component_holds(q, i, cal, column, removed, inside, end, c) {
                return false;
            }
        }
        i = next;
    }
    true
}

// Has the component of row k the name, can its row be in the range of component record j, and does it pass the property tests?
fn alone_holds(q: &Query, j: usize, name: &[u8], cal: &Calendar, column: &[u64], k: usize) -> bool
    requires q_value { records_good q.now.bytes.now q.now.sections ≡ true }
    requires j_lt_count { j < q.now.sections.components.count }
    requires name_value { name.now ≡ text_of q.now.bytes.now q.now.sections (component_at q.now.bytes.now q.now.sections j).name }
    requires indexed { Indexed cal.now.text.now cal.now.index.now }
    requires row_of { RowOf cal.now.text.now cal.now.rows.now k }
    requires row_small { RowSmall cal.now.rows.now column.now k }
    ensures { Alone q.now.bytes.now q.now.sections j cal.now.text.now cal.now.rows.now column.now k result }
{
    if !is_called(name, cal, k) {
        return false;
    }
    let r = q.component_at(j);
    if trials::ruled_out(q, r.range, cal, column, k) {
        return false;
    }
    property_tests::properties_hold(q, j, cal, k)
}

// The query on a file: component record 0 among what stands outside every component.
pub fn query_holds(
    q: &Query,
    cal: &Calendar,
    column: &[u64],
    removed: &RemovedColumn,
    c: Context,
) -> bool
    requires q_value { records_good q.now.bytes.now q.now.sections ≡ true }
    requires context_good { ContextGood c }
    requires file_rows { FileRows cal.now.text.now cal.now.index.now cal.now.rows.now }
    requires entry_rows { EntryRows c cal.now.text.now cal.now.rows.now column.now (get_or cal.now.rows.now 2 0) }
    requires removed_rows { RemovedRows c cal.now.text.now cal.now.rows.now removed.now.places.now removed.now.seconds.now (get_or cal.now.rows.now 2 0) }
    ensures { result ≡ query_holds c q.now.bytes.now q.now.sections (tree_in cal.now.text.now) }
{
    let end = cal.next_row(0);
    component_holds(q, 0, cal, column, removed, 0, end, c)
}
