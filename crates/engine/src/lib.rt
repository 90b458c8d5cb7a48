// The public calls: does a calendar match a query, and what is its report over a range?
// No call has a `requires`, and each contract fixes the answer and every byte lent for writing.
// The arguments of a call stand apart, as the C interface has them: docs/TRACE.md names `report`, `report_seconds` and `matches`.
#![tactic(auto)]

mod matching;
mod reporting;

ghost use Rattle.std.specs.Prelude.{◌≡◌};
ghost use Rattle.engine.specs.Answers.{answer_by, match_answer};
ghost use Rattle.engine.specs.Matching.{Matched};
ghost use Rattle.engine.specs.Reporting.{Reported, ReportedSeconds};

use calendar::Refusal;
use report::lines::Opening;
use table::Span;
use values::times::Context;

// What a public call answers.
// Refusal and line are numbers: docs/TRACE.md names this enum, and `lokuwaine` spreads it for C.
#[derive(Clone, Copy)]
pub enum Answer {
    // Does the calendar match?
    Verdict(bool),
    // The report's length.
    Length(usize),
    // The refusal's number, and the line at fault: 0 where it has none.
    Refused(u8, usize),
}

// What was written of a report, and how many seconds its tables have of each busy type: these are told on refusal 12 too.
#[derive(Clone, Copy)]
pub struct ReportSeconds {
    // The report's length, or the refusal.
    pub written: Result<usize, Refusal>,
    pub busy: u64,
    pub tentative: u64,
    pub unavailable: u64,
}

// The answer to a report call, by the report's length or its refusal.
// No From: a verdict and a length are each Ok of a Result of its own, so there would be two, and docs/TRACE.md names this function.
fn answer_by(written: Result<usize, Refusal>) -> Answer
    ensures { result ≡ answer_by written }
{
    match written {
        Ok(n) => Answer::Length(n),
        Err(e) => Answer::Refused(e.number, e.line),
    }
}

// The verdict of a match call, or its refusal.
fn verdict(cal: &[u8], query: &[u8], offset: i64, work: &mut [u8]) -> Result<bool, Refusal>
    ensures { Matched (record { calendar = cal.now; query = query.now; offset = offset; work = work.old }) (match_answer result) work.new }
{
    let Some(shift) = refusals::read_offset(offset) else {
        return Err(Refusal { number: 1, line: 0 });
    };
    refusals::check_sizes(cal, work)?;
    matching::match_query(work, cal, query, Context { shift })
}

// Does the calendar match the query? The work buffer holds the unfolded calendar afterwards, except on refusals 1 to 5.
pub fn matches(cal: &[u8], query: &[u8], offset: i64, work: &mut [u8]) -> Answer
    ensures { Matched (record { calendar = cal.now; query = query.now; offset = offset; work = work.old }) result work.new }
{
    match verdict(cal, query, offset, work) {
        Ok(holds) => Answer::Verdict(holds),
        Err(e) => Answer::Refused(e.number, e.line),
    }
}

// The report of the calendar over a range. On any refusal the output is unchanged; otherwise the report stands first in it.
pub fn report(
    cal: &[u8],
    start: u64,
    end: u64,
    offset: i64,
    stamp: u64,
    work: &mut [u8],
    out: &mut [u8],
) -> Answer
    ensures { Reported (record { terms = record { calendar = cal.now; start = start; end = end; offset = offset; stamp = stamp; work = work.old }; output = out.old }) result work.new out.new }
{
    let r = report_seconds(cal, start, end, offset, stamp, work, out);
    answer_by(r.written)
}

// The same report, with the busy seconds of each type: for callers that count what it says.
pub fn report_seconds(
    cal: &[u8],
    start: u64,
    end: u64,
    offset: i64,
    stamp: u64,
    work: &mut [u8],
    out: &mut [u8],
) -> ReportSeconds
    ensures { ReportedSeconds (record { terms = record { calendar = cal.now; start = start; end = end; offset = offset; stamp = stamp; work = work.old }; output = out.old }) result work.new out.new }
{
    let mut spans = [Span { start: 0, end: 0 }; 512];
    let c = collecting::collect(&mut spans, cal, start, end, offset, stamp, work);
    match c {
        Err(e) => ReportSeconds {
            written: Err(e),
            busy: 0,
            tentative: 0,
            unavailable: 0,
        },
        Ok(counts) => {
            reporting::write_counted(out, Opening { start, end, stamp }, &spans, counts)
        }
    }
}
