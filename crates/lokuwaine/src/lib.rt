// The public calls, which `lokuwaine_c` exports under these names for C and Rust: the answer's kind is the result, its value and its line go out through two numbers.
// Each makes one call and spreads its answer, nothing more. The arguments stand apart for the C interface.
#![tactic(auto)]

ghost use Rattle.std.specs.Prelude.{◌≡◌};
ghost use Rattle.lokuwaine.specs.Spreading.{MatchSpread, ReportSpread};

use engine::Answer;

// The kind of an answer, 0 for a verdict, 1 for a report's length and 2 for a refusal, its value, and the line at fault or 0.
// The kind is a number, and not an enum, since the C interface hands it out as one.
#[derive(Clone, Copy)]
pub struct Spread {
    pub kind: u64,
    pub value: u64,
    pub line: u64,
}

impl From<Answer> for Spread {
    ghost use Rattle.lokuwaine.specs.Spreading.{spread_of};

    ghost from_gives = { λ a s. s ≡ spread_of a };

    fn from(a: Answer) -> Spread {
        match a {
            Answer::Verdict(yes) => Spread {
                kind: 0,
                value: u64::from(yes),
                line: 0,
            },
            Answer::Length(n) => Spread {
                kind: 1,
                value: n as u64,
                line: 0,
            },
            Answer::Refused(n, line) => Spread {
                kind: 2,
                value: n as u64,
                line: line as u64,
            },
        }
    }
}

// Does the calendar match the query?
#[unsafe(no_mangle)]
pub extern "C" fn lokuwaine_match(
    cal: &[u8],
    query: &[u8],
    offset: i64,
    work: &mut [u8],
    value: &mut u64,
    line: &mut u64,
) -> u64
    ensures { MatchSpread (record { calendar = cal.now; query = query.now; offset = offset; work = work.old }) result value.new line.new work.new }
{
    let s = Spread::from(engine::matches(cal, query, offset, work));
    *value = s.value;
    *line = s.line;
    s.kind
}

// Which seconds from start up to, but not including, end are taken? The report goes to out.
#[unsafe(no_mangle)]
pub extern "C" fn lokuwaine_report(
    cal: &[u8],
    start: u64,
    end: u64,
    offset: i64,
    stamp: u64,
    work: &mut [u8],
    out: &mut [u8],
    value: &mut u64,
    line: &mut u64,
) -> u64
    ensures { ReportSpread (record { terms = record { calendar = cal.now; start = start; end = end; offset = offset; stamp = stamp; work = work.old }; output = out.old }) result value.new line.new work.new out.new }
{
    let s = Spread::from(engine::report(cal, start, end, offset, stamp, work, out));
    *value = s.value;
    *line = s.line;
    s.kind
}
