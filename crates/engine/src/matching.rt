// What is left of a match call once offset and sizes are good.
// The query is read before the calendar, as the table has it.
// Query and context go through unread to `filter::files::file_holds`, which docs/LAYOUT.md names: it takes them so, with `records_good` as a clause.
// Memory is fixed (no heap), and calendar, work buffer and column of exceptions have their bounds in clauses, as in `text::unfold_into`, `structure::read_structure`
// and `walks::read_components`, which docs/TRACE.md names.
ghost use Rattle.std.specs.Prelude.{◌≡◌, true, ◌*◌, ◌≤◌, ◌<◌, length};
ghost use Rattle.values.specs.Times.{ContextGood};
ghost use Rattle.structure.specs.Rows.{FileRows};
ghost use Rattle.structure.specs.Reading.{StructureRead};
ghost use Rattle.query_check.specs.WellFormed.{records_good};
ghost use Rattle.engine.specs.Answers.{match_answer, outcome_of};
ghost use Rattle.engine.specs.MatchStages.{contents_outcome, unfolded_outcome, CalendarAnswered, QueryAnswered};

use calendar::{Refusal, faults};
use contents::walks;
use filter::files;
use nesting::StructureError;
use query::Query;
use query_check::QueryError;
use series::columns::EventColumns;
use structure::calendar::Calendar;
use values::times::Context;

// Refusals 8 to 10, then the filter. A match has no range: the pieces of the first second are stored, and nobody asks for them.
fn match_excepted(
    exceptions: &mut [u32],
    cal: &Calendar,
    q: &Query,
    c: Context,
) -> Result<bool, Refusal>
    requires s_len_bound { (length cal.now.text.now ≤ 8 * length exceptions.old) × (length exceptions.old ≤ 8193) }
    requires file_rows { FileRows cal.now.text.now cal.now.index.now cal.now.rows.now }
    requires q_value { records_good q.now.bytes.now q.now.sections ≡ true }
    requires context_good { ContextGood c }
    ensures { outcome_of (match_answer result) ≡ contents_outcome c cal.now.text.now q.now.bytes.now q.now.sections }
{
    let mut column = [0u32; 1539];
    let mut entries = [0u64; 3072];
    let mut links = [0u32; 2048];
    walks::read_components(
        &mut column,
        &mut entries,
        exceptions,
        &mut links,
        cal,
        c,
        0,
        1,
    )?;
    let events = EventColumns {
        entries: &entries,
        links: &links,
        exceptions,
    };
    let holds = files::file_holds(q, cal, &events, c);
    Ok(holds)
}

// An exception has eight bytes of the calendar at least, so a short one gets short memory for them.
fn match_contents(cal: &Calendar, q: &Query, c: Context) -> Result<bool, Refusal>
    requires s_len_bound { length cal.now.text.now ≤ 65536 }
    requires file_rows { FileRows cal.now.text.now cal.now.index.now cal.now.rows.now }
    requires q_value { records_good q.now.bytes.now q.now.sections ≡ true }
    requires context_good { ContextGood c }
    ensures { outcome_of (match_answer result) ≡ contents_outcome c cal.now.text.now q.now.bytes.now q.now.sections }
{
    if cal.text.len() <= 8192 {
        let mut exceptions = [0u32; 1025];
        return match_excepted(&mut exceptions, cal, q, c);
    }
    let mut exceptions = [0u32; 8193];
    match_excepted(&mut exceptions, cal, q, c)
}

// Refusals 6 to 10, then the filter, where this was read of lines and nesting.
fn match_structured(
    structure: Result<(), StructureError>,
    cal: &Calendar,
    q: &Query,
    c: Context,
) -> Result<bool, Refusal>
    requires s_len_bound { length cal.now.text.now ≤ 65536 }
    requires structure_read { StructureRead cal.now.text.now cal.now.index.now cal.now.rows.now structure }
    requires q_value { records_good q.now.bytes.now q.now.sections ≡ true }
    requires context_good { ContextGood c }
    ensures { outcome_of (match_answer result) ≡ unfolded_outcome c cal.now.text.now q.now.bytes.now q.now.sections }
{
    faults::structure_fault(structure)?;
    match_contents(cal, q, c)
}

// The same: the lines stand in this index, which has room for them.
fn match_indexed(index: &mut [u32], s: &[u8], q: &Query, c: Context) -> Result<bool, Refusal>
    requires s_len_bound { length s.now < 4 * length index.old }
    requires s_len_bound_2 { length s.now ≤ 65536 }
    requires q_value { records_good q.now.bytes.now q.now.sections ≡ true }
    requires context_good { ContextGood c }
    ensures { outcome_of (match_answer result) ≡ unfolded_outcome c s.now q.now.bytes.now q.now.sections }
{
    let mut rows = [0u32; 1024];
    let structure = structure::read_structure(index, &mut rows, s);
    let cal = Calendar {
        text: s,
        index,
        rows: &rows,
    };
    match_structured(structure, &cal, q, c)
}

// An index is cleared before it is filled, so a short calendar gets a short one.
fn match_short(s: &[u8], q: &Query, c: Context) -> Result<bool, Refusal>
    requires s_len_bound { length s.now ≤ 8192 }
    requires q_value { records_good q.now.bytes.now q.now.sections ≡ true }
    requires context_good { ContextGood c }
    ensures { outcome_of (match_answer result) ≡ unfolded_outcome c s.now q.now.bytes.now q.now.sections }
{
    let mut index = [0u32; 2049];
    match_indexed(&mut index, s, q, c)
}

// This one has room for the lines of any calendar.
fn match_longest(s: &[u8], q: &Query, c: Context) -> Result<bool, Refusal>
    requires s_len_bound { length s.now ≤ 65536 }
    requires q_value { records_good q.now.bytes.now q.now.sections ≡ true }
    requires context_good { ContextGood c }
    ensures { outcome_of (match_answer result) ≡ unfolded_outcome c s.now q.now.bytes.now q.now.sections }
{
    let mut index = [0u32; 16385];
    match_indexed(&mut index, s, q, c)
}

// Few calendars have more than 4,096 lines; those that do are read anew with the longest index.
fn match_long(s: &[u8], q: &Query, c: Context) -> Result<bool, Refusal>
    requires s_len_bound { length s.now ≤ 65536 }
    requires q_value { records_good q.now.bytes.now q.now.sections ≡ true }
    requires context_good { ContextGood c }
    ensures { outcome_of (match_answer result) ≡ unfolded_outcome c s.now q.now.bytes.now q.now.sections }
{
    let mut index = [0u32; 4097];
    let mut rows = [0u32; 1024];
    match structure::find_structure(&mut index, &mut rows, s) {
        Some(found) => {
            let cal = Calendar {
                text: s,
                index: &index,
                rows: &rows,
            };
            match_structured(found, &cal, q, c)
        }
        None => match_longest(s, q, c),
    }
}

// Refusals 6 to 10 of the unfolded calendar, then the filter.
fn match_unfolded(s: &[u8], q: &Query, c: Context) -> Result<bool, Refusal>
    requires s_len_bound { length s.now ≤ 65536 }
    requires q_value { records_good q.now.bytes.now q.now.sections ≡ true }
    requires context_good { ContextGood c }
    ensures { outcome_of (match_answer result) ≡ unfolded_outcome c s.now q.now.bytes.now q.now.sections }
{
    if s.len() <= 8192 {
        return match_short(s, q, c);
    }
    match_long(s, q, c)
}

// Unfolds the calendar to the front of the work buffer; then refusals 6 to 10, then the filter.
fn match_calendar(work: &mut [u8], cal: &[u8], q: &Query, c: Context) -> Result<bool, Refusal>
    requires cal_in_bounds { length cal.now ≤ length work.old }
    requires cal_len_bound { length cal.now ≤ 65536 }
    requires q_value { records_good q.now.bytes.now q.now.sections ≡ true }
    requires context_good { ContextGood c }
    ensures { CalendarAnswered c cal.now q.now.bytes.now q.now.sections work.old (match_answer result) work.new }
{
    let n = text::unfold_into(work, cal);
    match_unfolded(&work[..n], q, c)
}

// Refusals 4 and 5, then the calendar.
pub fn match_query(work: &mut [u8], cal: &[u8], query: &[u8], c: Context) -> Result<bool, Refusal>
    requires cal_in_bounds { length cal.now ≤ length work.old }
    requires cal_len_bound { length cal.now ≤ 65536 }
    requires context_good { ContextGood c }
    ensures { QueryAnswered c cal.now query.now work.old (match_answer result) work.new }
{
    match query_check::read_query(query) {
        Err(QueryError::Bad) => Err(Refusal { number: 4, line: 0 }),
        Err(QueryError::Misplaced) => Err(Refusal { number: 5, line: 0 }),
        Ok(sections) => {
            let q = Query {
                bytes: query,
                sections,
            };
            match_calendar(work, cal, &q, c)
        }
    }
}
