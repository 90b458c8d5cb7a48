// Writing a report, straight into the output: its lines one after the other.
// The length is counted first, and the caller has the room.
ghost use Rattle.std.specs.Prelude.{◌≡◌, [], ◌∷◌, ◌+◌, ◌≤◌, length, take};
ghost use Rattle.text.specs.Lines.{joined};
ghost use Rattle.time.specs.Limits.{last_second};
ghost use Rattle.periods.specs.Periods.{period};
ghost use Rattle.table.specs.Tables.{starts_of, ends_of, rows, table_at, listed};
ghost use Rattle.report.specs.Bytes.{period_lines, busy_lines, report_bytes, report_length, GoodPeriods, Writable};
ghost use Rattle.report.specs.Heads.{timed, opening};
ghost use Rattle.report.specs.Writing.{packed, report_of, AllGood, Put};

use crate::heads;
use periods::Counts;
use table::Span;
use time::writing;

// What stands in a report before its periods: its range and its stamp.
#[derive(Clone, Copy)]
pub struct Opening {
    pub start: u64,
    pub end: u64,
    pub stamp: u64,
}

// How long a report is, by the number of periods of each type.
pub fn report_length(counts: Counts) -> usize
    requires { (counts.busy ≤ 512) × (counts.tentative ≤ 512) × (counts.unavailable ≤ 512) }
    ensures { result ≡ report_length counts.busy counts.tentative counts.unavailable }
{
    190 + 56 * counts.busy + 66 * counts.tentative + 68 * counts.unavailable
}

// A fixed string, and a second behind it. Output and place are no writer: a struct that holds a `&mut` wants a clause on that reference in each function.
fn put_timed(out: &mut [u8], at: usize, head: &[u8], t: u64) -> usize
    requires { (at + length head.now + 16 ≤ length out.old) × (t ≤ last_second) }
    ensures { Put out.old at (timed head.now t) out.new result }
{
    writing::put_bytes(out, at, head);
    let a = at + head.len();
    writing::write_utc(out, a, t);
    a + 16
}

// The line of one period.
fn put_period(out: &mut [u8], at: usize, head: &[u8], from: u64, to: u64) -> usize
    requires { (at + length head.now + 35 ≤ length out.old) × (from ≤ last_second) × (to ≤ last_second) }
    ensures { Put out.old at (joined (period_lines head.now (period from to ∷ []))) out.new result }
{
    let a = put_timed(out, at, head, from);
    let b = put_timed(out, a, b"/", to);
    writing::put_bytes(out, b, b"\r\n");
    b + 2
}

// A line for each of these spans.
fn put_periods(out: &mut [u8], at: usize, head: &[u8], spans: &[Span]) -> usize
    requires good_periods { GoodPeriods (rows (starts_of spans.now) (ends_of spans.now)) }
    requires ends_in_bounds { at + length (joined (period_lines head.now (rows (starts_of spans.now) (ends_of spans.now)))) ≤ length out.old }
    ensures { Put out.old at (joined (period_lines head.now (rows (starts_of spans.now) (ends_of spans.now)))) out.new result }
{
    let mut place = at;
    for span in spans {
        place = put_period(out, place, head, u64::from(span.start), u64::from(span.end));
    }
    place
}

// A line for each of so many rows, from row `first` on.
fn put_table(
    out: &mut [u8],
    at: usize,
    head: &[u8],
    spans: &[Span],
    first: usize,
    count: usize,
) -> usize
    requires count_in_bounds { first + count ≤ length spans.now }
    requires good_periods { GoodPeriods (listed (table_at first count (starts_of spans.now) (ends_of spans.now))) }
    requires ends_in_bounds { at + length (joined (period_lines head.now (listed (table_at first count (starts_of spans.now) (ends_of spans.now))))) ≤ length out.old }
    ensures { Put out.old at (joined (period_lines head.now (listed (table_at first count (starts_of spans.now) (ends_of spans.now))))) out.new result }
{
    put_periods(out, at, head, &spans[first..first + count])
}

// The lines of the periods, the types in their order: so many rows of each, one type behind the other.
fn put_types(out: &mut [u8], at: usize, spans: &[Span], counts: Counts) -> usize
    requires unavailable_in_bounds { counts.busy + counts.tentative + counts.unavailable ≤ length spans.now }
    requires all_good { AllGood (packed counts.busy counts.tentative counts.unavailable (starts_of spans.now) (ends_of spans.now)) }
    requires ends_in_bounds { at + length (joined (busy_lines (packed counts.busy counts.tentative counts.unavailable (starts_of spans.now) (ends_of spans.now)))) ≤ length out.old }
    ensures { Put out.old at (joined (busy_lines (packed counts.busy counts.tentative counts.unavailable (starts_of spans.now) (ends_of spans.now)))) out.new result }
{
    let Counts {
        busy,
        tentative,
        unavailable,
    } = counts;
    let a = put_table(out, at, &heads::BUSY_HEAD, spans, 0, busy);
    let b = put_table(out, a, &heads::TENTATIVE_HEAD, spans, busy, tentative);
    put_table(
        out,
        b,
        &heads::UNAVAILABLE_HEAD,
        spans,
        busy + tentative,
        unavailable,
    )
}

// The lines before the periods.
fn put_opening(out: &mut [u8], o: Opening) -> usize
    requires { (160 ≤ length out.old) × (o.start ≤ last_second) × (o.end ≤ last_second) × (o.stamp ≤ last_second) }
    ensures { Put out.old 0 (opening o.start o.end o.stamp) out.new result }
{
    let a = put_timed(out, 0, &heads::STAMP_HEAD, o.stamp);
    let b = put_timed(out, a, &heads::START_HEAD, o.start);
    let c = put_timed(out, b, &heads::END_HEAD, o.end);
    writing::put_bytes(out, c, b"\r\n");
    c + 2
}

// The report of so many rows of each type, from the first byte of the output on.
// Opening, spans and counts stay apart, and `Writable` a clause: docs/TRACE.md names this function, whose arguments may not change.
pub fn put_report(out: &mut [u8], o: Opening, spans: &[Span], counts: Counts) -> usize
    requires writable { Writable (report_of o.start o.end o.stamp (packed counts.busy counts.tentative counts.unavailable (starts_of spans.now) (ends_of spans.now))) }
    requires unavailable_in_bounds { counts.busy + counts.tentative + counts.unavailable ≤ length spans.now }
    requires ends_in_bounds { length (report_bytes (report_of o.start o.end o.stamp (packed counts.busy counts.tentative counts.unavailable (starts_of spans.now) (ends_of spans.now)))) ≤ length out.old }
    ensures { Put out.old 0 (report_bytes (report_of o.start o.end o.stamp (packed counts.busy counts.tentative counts.unavailable (starts_of spans.now) (ends_of spans.now)))) out.new result }
{
    let a = put_opening(out, o);
    let b = put_types(out, a, spans, counts);
    writing::put_bytes(out, b, &heads::CLOSING);
    b + 30
}
