// The busy pieces of events, once all components are read: which instances stand is known only then.
// Each event is taken from its row, with the starts that are taken away from it.
// EntryRows, Removable and RemovedRows stay clauses, and column with count, columns of events, calendar, context and range arguments of their own (no heap):
// docs/TRACE.md names `store_events` and docs/LAYOUT.md `store_instances`, which take them so.
#![tactic(auto)]

ghost use Rattle.std.specs.Prelude.{◌≡◌, ◌+◌, ◌≤◌, ◌<◌, length, get_or};
ghost use Rattle.time.specs.Limits.{last_second};
ghost use Rattle.structure.specs.Rows.{FileRows};
ghost use Rattle.calendar.specs.Meaning.{entries_of, components_of};
ghost use Rattle.pieces.specs.BusyPeriods.{instance_periods, gathered};
ghost use Rattle.pieces.specs.Pieces.{pieces_of};
ghost use Rattle.pieces.specs.Columns.{Room, Stored};
ghost use Rattle.contents.specs.EntryRows.{EntryRows};
ghost use Rattle.series.specs.Columns.{RemovedRows, Removable};
ghost use Rattle.event_pieces.specs.Removed.{RowKnown, row_periods};

use pieces::storing;
use series::columns;
use series::columns::{EventColumns, RemovedColumn};
use structure::calendar::Calendar;
use values::times::Context;

// The pieces of the component of row k, where it is an event.
// Kind 1 is an event: a number, as the row in lent memory has it (no heap).
fn store_row(
    column: &mut [u32],
    n: usize,
    entries: &[u64],
    removed: &RemovedColumn,
    cal: &Calendar,
    k: usize,
    a: u64,
    b: u64,
) -> usize
    requires room { Room column.old }
    requires n_bound { n ≤ 513 }
    requires row_known { RowKnown cal.now.rows.now entries.now removed.now.places.now removed.now.seconds.now k }
    requires a_lt_b { (a < b) × (b ≤ last_second) }
    ensures { Stored column.old n (pieces_of a b (row_periods cal.now.rows.now entries.now removed.now.places.now removed.now.seconds.now k)) column.new result }
{
    if cal.kind_at(k) == 1 {
        let e = events::rows::event_at(entries, k);
        return storing::store_event(column, n, e, removed.gone_at(k), a, b);
    }
    n
}

// The pieces of all events from a up to, but not including, b.
pub fn store_events(
    column: &mut [u32],
    first: usize,
    entries: &[u64],
    removed: &RemovedColumn,
    cal: &Calendar,
    c: Context,
    a: u64,
    b: u64,
) -> usize
    requires room { Room column.old }
    requires first_bound { first ≤ 513 }
    requires file_rows { FileRows cal.now.text.now cal.now.index.now cal.now.rows.now }
    requires entry_rows { EntryRows c cal.now.text.now cal.now.rows.now entries.now (get_or cal.now.rows.now 2 0) }
    requires removed_rows { RemovedRows c cal.now.text.now cal.now.rows.now removed.now.places.now removed.now.seconds.now (get_or cal.now.rows.now 2 0) }
    requires a_lt_b { (a < b) × (b ≤ last_second) }
    ensures { Stored column.old first (pieces_of a b (gathered instance_periods (entries_of c (components_of cal.now.text.now)))) column.new result }
{
    let m = cal.next_row(0);
    let mut n = first;
    let mut k: usize = 1;
    // A `while`: a component is passed by its rows, as the row read says.
    while k < m {
        n = store_row(column, n, entries, removed, cal, k, a, b);
        k = cal.next_row(k);
    }
    n
}

// The same, where the starts that are taken away are told by links and exceptions: they are put into columns first.
// Three lent slices, as `columns::fill_removed` takes them, which docs/TRACE.md names.
fn store_left(
    column: &mut [u32],
    first: usize,
    places: &mut [u32],
    removed: &mut [u32],
    spare: &mut [u32],
    events: &EventColumns,
    cal: &Calendar,
    c: Context,
    a: u64,
    b: u64,
) -> usize
    requires room { Room column.old }
    requires first_bound { first ≤ 513 }
    requires places_len { (length places.old ≡ 257) × (length events.now.exceptions.now + 512 ≤ length removed.old) × (length removed.old ≤ 65536) × (length removed.old ≤ length spare.old) }
    requires file_rows { FileRows cal.now.text.now cal.now.index.now cal.now.rows.now }
    requires entry_rows { EntryRows c cal.now.text.now cal.now.rows.now events.now.entries.now (get_or cal.now.rows.now 2 0) }
    requires removable { Removable c cal.now.text.now cal.now.index.now cal.now.rows.now events.now.links.now events.now.exceptions.now (get_or cal.now.rows.now 2 0) }
    requires a_lt_b { (a < b) × (b ≤ last_second) }
    ensures { Stored column.old first (pieces_of a b (gathered instance_periods (entries_of c (components_of cal.now.text.now)))) column.new result }
{
    let m = cal.next_row(0);
    columns::fill_removed(places, removed, spare, cal, events, m, c);
    let removed = RemovedColumn {
        places,
        seconds: removed,
    };
    store_events(column, first, events.entries, &removed, cal, c, a, b)
}

// With memory for the exceptions of a short calendar.
// Fixed memory, as in `store_many`: the engine's crates use no heap.
fn store_few(
    column: &mut [u32],
    first: usize,
    events: &EventColumns,
    cal: &Calendar,
    c: Context,
    a: u64,
    b: u64,
) -> usize
    requires room { Room column.old }
    requires first_bound { first ≤ 513 }
    requires exceptions_len_bound { length events.now.exceptions.now ≤ 1025 }
    requires file_rows { FileRows cal.now.text.now cal.now.index.now cal.now.rows.now }
    requires entry_rows { EntryRows c cal.now.text.now cal.now.rows.now events.now.entries.now (get_or cal.now.rows.now 2 0) }
    requires removable { Removable c cal.now.text.now cal.now.index.now cal.now.rows.now events.now.links.now events.now.exceptions.now (get_or cal.now.rows.now 2 0) }
    requires a_lt_b { (a < b) × (b ≤ last_second) }
    ensures { Stored column.old first (pieces_of a b (gathered instance_periods (entries_of c (components_of cal.now.text.now)))) column.new result }
{
    let mut places = [0u32; 257];
    let mut removed = [0u32; 1537];
    let mut spare = [0u32; 1537];
    store_left(
        column,
        first,
        &mut places,
        &mut removed,
        &mut spare,
        events,
        cal,
        c,
        a,
        b,
    )
}

// With memory for those of any calendar.
fn store_many(
    column: &mut [u32],
    first: usize,
    events: &EventColumns,
    cal: &Calendar,
    c: Context,
    a: u64,
    b: u64,
) -> usize
    requires room { Room column.old }
    requires first_bound { first ≤ 513 }
    requires exceptions_len_bound { length events.now.exceptions.now ≤ 8193 }
    requires file_rows { FileRows cal.now.text.now cal.now.index.now cal.now.rows.now }
    requires entry_rows { EntryRows c cal.now.text.now cal.now.rows.now events.now.entries.now (get_or cal.now.rows.now 2 0) }
    requires removable { Removable c cal.now.text.now cal.now.index.now cal.now.rows.now events.now.links.now events.now.exceptions.now (get_or cal.now.rows.now 2 0) }
    requires a_lt_b { (a < b) × (b ≤ last_second) }
    ensures { Stored column.old first (pieces_of a b (gathered instance_periods (entries_of c (components_of cal.now.text.now)))) column.new result }
{
    let mut places = [0u32; 257];
    let mut removed = [0u32; 8705];
    let mut spare = [0u32; 8705];
    store_left(
        column,
        first,
        &mut places,
        &mut removed,
        &mut spare,
        events,
        cal,
        c,
        a,
        b,
    )
}

// The same with memory of its own. From most calendars nothing is taken away, and then there is nothing to clear.
pub fn store_instances(
    column: &mut [u32],
    first: usize,
    events: &EventColumns,
    cal: &Calendar,
    c: Context,
    a: u64,
    b: u64,
) -> usize
    requires room { Room column.old }
    requires first_bound { first ≤ 513 }
    requires exceptions_len_bound { length events.now.exceptions.now ≤ 8193 }
    requires file_rows { FileRows cal.now.text.now cal.now.index.now cal.now.rows.now }
    requires entry_rows { EntryRows c cal.now.text.now cal.now.rows.now events.now.entries.now (get_or cal.now.rows.now 2 0) }
    requires removable { Removable c cal.now.text.now cal.now.index.now cal.now.rows.now events.now.links.now events.now.exceptions.now (get_or cal.now.rows.now 2 0) }
    requires a_lt_b { (a < b) × (b ≤ last_second) }
    ensures { Stored column.old first (pieces_of a b (gathered instance_periods (entries_of c (components_of cal.now.text.now)))) column.new result }
{
    let m = cal.next_row(0);
    if columns::is_nothing_taken(cal, events.links, m) {
        let removed = RemovedColumn {
            places: &[0u32; 257],
            seconds: &[0u32; 1],
        };
        return store_events(column, first, events.entries, &removed, cal, c, a, b);
    }
    if events.exceptions.len() <= 1025 {
        return store_few(column, first, events, cal, c, a, b);
    }
    store_many(column, first, events, cal, c, a, b)
}
