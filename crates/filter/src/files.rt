// The query on a whole file, where links and exceptions tell which starts are taken away from its events.
// They are put into columns first; from most calendars nothing is taken away, and then there is nothing to clear.
// Clauses and arguments are as in `components`: docs/LAYOUT.md names `file_holds`, which takes them so.
ghost use Rattle.std.specs.Prelude.{◌≡◌, true, ◌+◌, ◌≤◌, length, get_or};
ghost use Rattle.values.specs.Times.{ContextGood};
ghost use Rattle.nesting.specs.Files.{tree_in};
ghost use Rattle.structure.specs.Rows.{FileRows};
ghost use Rattle.query_check.specs.WellFormed.{records_good};
ghost use Rattle.series.specs.Columns.{Removable};
ghost use Rattle.contents.specs.EntryRows.{EntryRows};
ghost use Rattle.filter.specs.Tests.{query_holds};

use crate::components;
use query::Query;
use series::columns;
use series::columns::{EventColumns, RemovedColumn};
use structure::calendar::Calendar;
use values::times::Context;

// With these columns.
// Three lent slices, as `columns::fill_removed` takes them, which docs/TRACE.md names.
fn holds_left(
    places: &mut [u32],
    removed: &mut [u32],
    spare: &mut [u32],
    q: &Query,
    cal: &Calendar,
    events: &EventColumns,
    c: Context,
) -> bool
    requires q_value { records_good q.now.bytes.now q.now.sections ≡ true }
    requires context_good { ContextGood c }
    requires file_rows { FileRows cal.now.text.now cal.now.index.now cal.now.rows.now }
    requires entry_rows { EntryRows c cal.now.text.now cal.now.rows.now events.now.entries.now (get_or cal.now.rows.now 2 0) }
    requires removable { Removable c cal.now.text.now cal.now.index.now cal.now.rows.now events.now.links.now events.now.exceptions.now (get_or cal.now.rows.now 2 0) }
    requires places_len { (length places.old ≡ 257) × (length events.now.exceptions.now + 512 ≤ length removed.old) × (length removed.old ≤ 65536) × (length removed.old ≤ length spare.old) }
    ensures { result ≡ query_holds c q.now.bytes.now q.now.sections (tree_in cal.now.text.now) }
{
    let m = cal.next_row(0);
    columns::fill_removed(places, removed, spare, cal, events, m, c);
    let removed = RemovedColumn {
        places,
        seconds: removed,
    };
    components::query_holds(q, cal, events.entries, &removed, c)
}

// With memory for the exceptions of a short calendar.
// Fixed memory, as in `holds_many`: the engine's crates use no heap.
fn holds_few(q: &Query, cal: &Calendar, events: &EventColumns, c: Context) -> bool
    requires q_value { records_good q.now.bytes.now q.now.sections ≡ true }
    requires context_good { ContextGood c }
    requires file_rows { FileRows cal.now.text.now cal.now.index.now cal.now.rows.now }
    requires entry_rows { EntryRows c cal.now.text.now cal.now.rows.now events.now.entries.now (get_or cal.now.rows.now 2 0) }
    requires removable { Removable c cal.now.text.now cal.now.index.now cal.now.rows.now events.now.links.now events.now.exceptions.now (get_or cal.now.rows.now 2 0) }
    requires exceptions_len_bound { length events.now.exceptions.now ≤ 1025 }
    ensures { result ≡ query_holds c q.now.bytes.now q.now.sections (tree_in cal.now.text.now) }
{
    let mut places = [0u32; 257];
    let mut removed = [0u32; 1537];
    let mut spare = [0u32; 1537];
    holds_left(&mut places, &mut removed, &mut spare, q, cal, events, c)
}

// With memory for those of any calendar.
fn holds_many(q: &Query, cal: &Calendar, events: &EventColumns, c: Context) -> bool
    requires q_value { records_good q.now.bytes.now q.now.sections ≡ true }
    requires context_good { ContextGood c }
    requires file_rows { FileRows cal.now.text.now cal.now.index.now cal.now.rows.now }
    requires entry_rows { EntryRows c cal.now.text.now cal.now.rows.now events.now.entries.now (get_or cal.now.rows.now 2 0) }
    requires removable { Removable c cal.now.text.now cal.now.index.now cal.now.rows.now events.now.links.now events.now.exceptions.now (get_or cal.now.rows.now 2 0) }
    requires exceptions_len_bound { length events.now.exceptions.now ≤ 8193 }
    ensures { result ≡ query_holds c q.now.bytes.now q.now.sections (tree_in cal.now.text.now) }
{
    let mut places = [0u32; 257];
    let mut removed = [0u32; 8705];
    let mut spare = [0u32; 8705];
    holds_left(&mut places, &mut removed, &mut spare, q, cal, events, c)
}

// With memory of its own.
pub fn file_holds(q: &Query, cal: &Calendar, events: &EventColumns, c: Context) -> bool
    requires q_value { records_good q.now.bytes.now q.now.sections ≡ true }
    requires context_good { ContextGood c }
    requires file_rows { FileRows cal.now.text.now cal.now.index.now cal.now.rows.now }
    requires entry_rows { EntryRows c cal.now.text.now cal.now.rows.now events.now.entries.now (get_or cal.now.rows.now 2 0) }
    requires removable { Removable c cal.now.text.now cal.now.index.now cal.now.rows.now events.now.links.now events.now.exceptions.now (get_or cal.now.rows.now 2 0) }
    requires exceptions_len_bound { length events.now.exceptions.now ≤ 8193 }
    ensures { result ≡ query_holds c q.now.bytes.now q.now.sections (tree_in cal.now.text.now) }
{
    let m = cal.next_row(0);
    if columns::is_nothing_taken(cal, events.links, m) {
        let removed = RemovedColumn {
            places: &[0u32; 257],
            seconds: &[0u32; 1],
        };
        return components::query_holds(q, cal, events.entries, &removed, c);
    }
    if events.exceptions.len() <= 1025 {
        return holds_few(q, cal, events, c);
    }
    holds_many(q, cal, events, c)
}
