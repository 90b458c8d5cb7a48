// The two calls of `lokuwaine` as a static library exports them, for C and Rust.
// Each hands its arguments on, and promises what the call does. The arguments stand apart, and both crates have them so, for the C interface.
#![tactic(auto)]

ghost use Rattle.lokuwaine.specs.Spreading.{MatchSpread, ReportSpread};

// Does the calendar match the query?
#[unsafe(no_mangle)]
pub extern "C" fn lokuwaine_match(
    cal: &[u8],
    query: &[u8],
    offset: i64,
    work: &mut [u8],
    value: &mut u64,
    line: &mut u64,
) -> u64
    ensures { MatchSpread (record { calendar = cal.now; query = query.now; offset = offset; work = work.old }) result value.new line.new work.new }
{
    lokuwaine::lokuwaine_match(cal, query, offset, work, value, line)
}

// Which seconds from start up to, but not including, end are taken? The report goes to out.
#[unsafe(no_mangle)]
pub extern "C" fn lokuwaine_report(
    cal: &[u8],
    start: u64,
    end: u64,
    offset: i64,
    stamp: u64,
    work: &mut [u8],
    out: &mut [u8],
    value: &mut u64,
    line: &mut u64,
) -> u64
    ensures { ReportSpread (record { terms = record { calendar = cal.now; start = start; end = end; offset = offset; stamp = stamp; work = work.old }; output = out.old }) result value.new line.new work.new out.new }
{
    lokuwaine::lokuwaine_report(cal, start, end, offset, stamp, work, out, value, line)
}
