// Refusals 1 to 3 and 6 to 11 of a report, then its period tables: what a report is written from.
// Nothing is written but the work buffer and the spans of the tables.
// Memory is fixed and lent (no heap): spans, columns and index are slices, and calendar, work buffer and column of exceptions have their bounds in clauses,
// as in `collect`, `text::unfold_into`, `structure::read_structure` and `walks::read_components`, which docs/TRACE.md names.
// Context and range go through unread, two numbers beside it, as `walks::read_components` and `event_pieces::store_instances` take them (docs/LAYOUT.md).
#![tactic(auto)]

ghost use Rattle.std.specs.Prelude.{◌≡◌, ◌*◌, ◌≤◌, ◌<◌, length};
ghost use Rattle.pieces.specs.Columns.{Room};
ghost use Rattle.table.specs.Tables.{starts_of, ends_of};
ghost use Rattle.values.specs.Times.{ContextGood};
ghost use Rattle.time.specs.Limits.{last_second};
ghost use Rattle.collecting.specs.Collecting.{Collects};
ghost use Rattle.collecting.specs.CollectStages.{call_read, Typed, ContentsTabled, CalendarTabled, CalendarCollected};
ghost use Rattle.structure.specs.Rows.{FileRows};
ghost use Rattle.structure.specs.Reading.{StructureRead};

use calendar::{Refusal, faults};
use contents::walks;
use nesting::StructureError;
use periods::Counts;
use series::columns::EventColumns;
use structure::calendar::Calendar;
use table::Span;
use time::limits;
use values::times::Context;

// Refusal 1: range, stamp and offset.
fn read_call(start: u64, end: u64, offset: i64, stamp: u64) -> Option<u64>
    ensures { result ≡ call_read start end offset stamp }
{
    let good = (start < end) & (end <= limits::LAST_SECOND) & (stamp <= limits::LAST_SECOND);
    if good {
        return refusals::read_offset(offset);
    }
    None
}

// The tables of the three types, from the first n pieces of a column.
// A type is its table's place, and the column is lent with its count (no heap), as `tables::table_at` takes them, which docs/TRACE.md names.
fn tables_of(spans: &mut [Span], column: &[u32], n: usize) -> Counts
    requires spans_len { length spans.old ≡ 512 }
    requires n_bound { n ≤ 512 }
    requires n_in_bounds { 3 * n ≤ length column.now }
    ensures { Typed column.now n result (starts_of spans.new) (ends_of spans.new) }
{
    let busy = tables::table_at(spans, 0, column, n, 0);
    let tentative = tables::table_at(spans, busy, column, n, 1);
    let unavailable = tables::table_at(spans, busy + tentative, column, n, 2);
    Counts {
        busy,
        tentative,
        unavailable,
    }
}

// Refusals 8 to 11, then the tables: the pieces are stored in the column, events and blocks in rows of numbers, with what ties events to each other.
fn collect_stored(
    spans: &mut [Span],
    column: &mut [u32],
    entries: &mut [u64],
    exceptions: &mut [u32],
    links: &mut [u32],
    cal: &Calendar,
    c: Context,
    start: u64,
    end: u64,
) -> Result<Counts, Refusal>
    requires spans_len { length spans.old ≡ 512 }
    requires room { Room column.old }
    requires entries_len { length entries.old ≡ 3072 }
    requires links_len { length links.old ≡ 2048 }
    requires s_len_bound { (length cal.now.text.now ≤ 8 * length exceptions.old) × (length exceptions.old ≤ 8193) }
    requires context_good { ContextGood c }
    requires file_rows { FileRows cal.now.text.now cal.now.index.now cal.now.rows.now }
    requires start_lt_end { (start < end) × (end ≤ last_second) }
    ensures { ContentsTabled c cal.now.text.now start end result (starts_of spans.new) (ends_of spans.new) }
{
    let stated = walks::read_components(column, entries, exceptions, links, cal, c, start, end)?;
    let events = EventColumns {
        entries,
        links,
        exceptions,
    };
    let n = event_pieces::store_instances(column, stated, &events, cal, c, start, end);
    if 512 < n {
        return Err(Refusal {
            number: 11,
            line: 0,
        });
    }
    Ok(tables_of(spans, column, n))
}

// The same with memory of its own: room for 513 pieces of three numbers, for 256 rows of twelve, and for as many links of eight.
fn collect_excepted(
    spans: &mut [Span],
    exceptions: &mut [u32],
    cal: &Calendar,
    c: Context,
    start: u64,
    end: u64,
) -> Result<Counts, Refusal>
    requires spans_len { length spans.old ≡ 512 }
    requires s_len_bound { (length cal.now.text.now ≤ 8 * length exceptions.old) × (length exceptions.old ≤ 8193) }
    requires context_good { ContextGood c }
    requires file_rows { FileRows cal.now.text.now cal.now.index.now cal.now.rows.now }
    requires start_lt_end { (start < end) × (end ≤ last_second) }
    ensures { ContentsTabled c cal.now.text.now start end result (starts_of spans.new) (ends_of spans.new) }
{
    let mut column = [0u32; 1539];
    let mut entries = [0u64; 3072];
    let mut links = [0u32; 2048];
    collect_stored(
        spans,
        &mut column,
        &mut entries,
        exceptions,
        &mut links,
        cal,
        c,
        start,
        end,
    )
}

// An exception has eight bytes of the calendar at least, so a short one gets short memory for them.
fn collect_contents(
    spans: &mut [Span],
    cal: &Calendar,
    c: Context,
    start: u64,
    end: u64,
) -> Result<Counts, Refusal>
    requires spans_len { length spans.old ≡ 512 }
    requires s_len_bound { length cal.now.text.now ≤ 65536 }
    requires context_good { ContextGood c }
    requires file_rows { FileRows cal.now.text.now cal.now.index.now cal.now.rows.now }
    requires start_lt_end { (start < end) × (end ≤ last_second) }
    ensures { ContentsTabled c cal.now.text.now start end result (starts_of spans.new) (ends_of spans.new) }
{
    if cal.text.len() <= 8192 {
        let mut exceptions = [0u32; 1025];
        return collect_excepted(spans, &mut exceptions, cal, c, start, end);
    }
    let mut exceptions = [0u32; 8193];
    collect_excepted(spans, &mut exceptions, cal, c, start, end)
}

// Refusals 6 to 11, then the tables, where this was read of lines and nesting.
fn collect_structured(
    spans: &mut [Span],
    structure: Result<(), StructureError>,
    cal: &Calendar,
    c: Context,
    start: u64,
    end: u64,
) -> Result<Counts, Refusal>
    requires spans_len { length spans.old ≡ 512 }
    requires s_len_bound { length cal.now.text.now ≤ 65536 }
    requires structure_read { StructureRead cal.now.text.now cal.now.index.now cal.now.rows.now structure }
    requires context_good { ContextGood c }
    requires start_lt_end { (start < end) × (end ≤ last_second) }
    ensures { CalendarTabled c cal.now.text.now start end result (starts_of spans.new) (ends_of spans.new) }
{
    faults::structure_fault(structure)?;
    collect_contents(spans, cal, c, start, end)
}

// The same: the lines stand in this index, which has room for them.
fn collect_indexed(
    spans: &mut [Span],
    index: &mut [u32],
    s: &[u8],
    c: Context,
    start: u64,
    end: u64,
) -> Result<Counts, Refusal>
    requires spans_len { length spans.old ≡ 512 }
    requires s_len_bound { length s.now < 4 * length index.old }
    requires s_len_bound_2 { length s.now ≤ 65536 }
    requires context_good { ContextGood c }
    requires start_lt_end { (start < end) × (end ≤ last_second) }
    ensures { CalendarTabled c s.now start end result (starts_of spans.new) (ends_of spans.new) }
{
    let mut rows = [0u32; 1024];
    let structure = structure::read_structure(index, &mut rows, s);
    let cal = Calendar {
        text: s,
        index,
        rows: &rows,
    };
    collect_structured(spans, structure, &cal, c, start, end)
}

// An index is cleared before it is filled, so a short calendar gets a short one.
fn collect_short(
    spans: &mut [Span],
    s: &[u8],
    c: Context,
    start: u64,
    end: u64,
) -> Result<Counts, Refusal>
    requires spans_len { length spans.old ≡ 512 }
    requires s_len_bound { length s.now ≤ 8192 }
    requires context_good { ContextGood c }
    requires start_lt_end { (start < end) × (end ≤ last_second) }
    ensures { CalendarTabled c s.now start end result (starts_of spans.new) (ends_of spans.new) }
{
    let mut index = [0u32; 2049];
    collect_indexed(spans, &mut index, s, c, start, end)
}

// This one has room for the lines of any calendar.
fn collect_longest(
    spans: &mut [Span],
    s: &[u8],
    c: Context,
    start: u64,
    end: u64,
) -> Result<Counts, Refusal>
    requires spans_len { length spans.old ≡ 512 }
    requires s_len_bound { length s.now ≤ 65536 }
    requires context_good { ContextGood c }
    requires start_lt_end { (start < end) × (end ≤ last_second) }
    ensures { CalendarTabled c s.now start end result (starts_of spans.new) (ends_of spans.new) }
{
    let mut index = [0u32; 16385];
    collect_indexed(spans, &mut index, s, c, start, end)
}

// Few calendars have more than 4,096 lines; those that do are read anew with the longest index.
fn collect_long(
    spans: &mut [Span],
    s: &[u8],
    c: Context,
    start: u64,
    end: u64,
) -> Result<Counts, Refusal>
    requires spans_len { length spans.old ≡ 512 }
    requires s_len_bound { length s.now ≤ 65536 }
    requires context_good { ContextGood c }
    requires start_lt_end { (start < end) × (end ≤ last_second) }
    ensures { CalendarTabled c s.now start end result (starts_of spans.new) (ends_of spans.new) }
{
    let mut index = [0u32; 4097];
    let mut rows = [0u32; 1024];
    match structure::find_structure(&mut index, &mut rows, s) {
        Some(found) => {
            let cal = Calendar {
                text: s,
                index: &index,
                rows: &rows,
            };
            collect_structured(spans, found, &cal, c, start, end)
        }
        None => collect_longest(spans, s, c, start, end),
    }
}

// Refusals 6 to 11 of the unfolded calendar, then the tables.
fn collect_unfolded(
    spans: &mut [Span],
    s: &[u8],
    c: Context,
    start: u64,
    end: u64,
) -> Result<Counts, Refusal>
    requires spans_len { length spans.old ≡ 512 }
    requires s_len_bound { length s.now ≤ 65536 }
    requires context_good { ContextGood c }
    requires start_lt_end { (start < end) × (end ≤ last_second) }
    ensures { CalendarTabled c s.now start end result (starts_of spans.new) (ends_of spans.new) }
{
    if s.len() <= 8192 {
        return collect_short(spans, s, c, start, end);
    }
    collect_long(spans, s, c, start, end)
}

// Unfolds the calendar to the front of the work buffer; then refusals 6 to 11, then the tables.
fn collect_calendar(
    spans: &mut [Span],
    work: &mut [u8],
    cal: &[u8],
    c: Context,
    start: u64,
    end: u64,
) -> Result<Counts, Refusal>
    requires spans_len { length spans.old ≡ 512 }
    requires cal_in_bounds { length cal.now ≤ length work.old }
    requires cal_len_bound { length cal.now ≤ 65536 }
    requires context_good { ContextGood c }
    requires start_lt_end { (start < end) × (end ≤ last_second) }
    ensures { CalendarCollected c cal.now work.old start end result (starts_of spans.new) (ends_of spans.new) work.new }
{
    let n = text::unfold_into(work, cal);
    collect_unfolded(spans, &work[..n], c, start, end)
}

// The first of refusals 1 to 3 and 6 to 11, or the period tables; the work buffer holds the unfolded calendar afterwards, except on refusals 1 to 3.
pub fn collect(
    spans: &mut [Span],
    cal: &[u8],
    start: u64,
    end: u64,
    offset: i64,
    stamp: u64,
    work: &mut [u8],
) -> Result<Counts, Refusal>
    requires { length spans.old ≡ 512 }
    ensures { Collects (record { calendar = cal.now; start = start; end = end; offset = offset; stamp = stamp; work = work.old }) result (starts_of spans.new) (ends_of spans.new) work.new }
{
    let Some(shift) = read_call(start, end, offset, stamp) else {
        return Err(Refusal { number: 1, line: 0 });
    };
    refusals::check_sizes(cal, work)?;
    collect_calendar(spans, work, cal, Context { shift }, start, end)
}
