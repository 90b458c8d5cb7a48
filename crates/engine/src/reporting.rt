// What is left of a report call once its period tables are collected, in a slice of spans.
// The length is counted before a byte is written, so an output that is too short stays as it was.
// Opening, spans and counts are arguments of their own, and Writable a clause on them, as in `report::lines::put_report`, which docs/TRACE.md names.
ghost use Rattle.std.specs.Prelude.{◌≡◌, ◌+◌, ◌≤◌, length};
ghost use Rattle.table.specs.Tables.{starts_of, ends_of};
ghost use Rattle.report.specs.Bytes.{report_bytes, Writable};
ghost use Rattle.report.specs.Writing.{packed, report_of};
ghost use Rattle.engine.specs.ReportWriting.{Wrote, WroteCounted};

use crate::ReportSeconds;
use calendar::Refusal;
use periods::Counts;
use report::lines::{self, Opening};
use table::Span;

// Refusal 12, then the report's bytes.
fn write_report(
    out: &mut [u8],
    o: Opening,
    spans: &[Span],
    counts: Counts,
) -> Result<usize, Refusal>
    requires writable { Writable (report_of o.start o.end o.stamp (packed counts.busy counts.tentative counts.unavailable (starts_of spans.now) (ends_of spans.now))) }
    requires spans_len { length spans.now ≡ 512 }
    requires unavailable_bound { counts.busy + counts.tentative + counts.unavailable ≤ 512 }
    ensures { Wrote (report_bytes (report_of o.start o.end o.stamp (packed counts.busy counts.tentative counts.unavailable (starts_of spans.now) (ends_of spans.now)))) out.old result out.new }
{
    let n = lines::report_length(counts);
    if out.len() < n {
        return Err(Refusal {
            number: 12,
            line: 0,
        });
    }
    lines::put_report(out, o, spans, counts);
    Ok(n)
}

// The same, with the seconds of so many rows of each type.
pub fn write_counted(out: &mut [u8], o: Opening, spans: &[Span], counts: Counts) -> ReportSeconds
    requires writable { Writable (report_of o.start o.end o.stamp (packed counts.busy counts.tentative counts.unavailable (starts_of spans.now) (ends_of spans.now))) }
    requires spans_len { length spans.now ≡ 512 }
    requires unavailable_bound { counts.busy + counts.tentative + counts.unavailable ≤ 512 }
    ensures { WroteCounted (report_of o.start o.end o.stamp (packed counts.busy counts.tentative counts.unavailable (starts_of spans.now) (ends_of spans.now))) out.old result out.new }
{
    let written = write_report(out, o, spans, counts);
    let Counts {
        busy,
        tentative,
        unavailable,
    } = counts;
    ReportSeconds {
        written,
        busy: table::seconds::seconds_in(spans, 0, busy),
        tentative: table::seconds::seconds_in(spans, busy, tentative),
        unavailable: table::seconds::seconds_in(spans, busy + tentative, unavailable),
    }
}
