// The check of a report: it is made, and its own bytes are then asked about as a calendar.
// The second call may have an offset of its own, which no report depends on.
use cli::arguments::Plan;
use console::args::{offset_at, read_plan};
use console::fault_line::show_fault;
use console::file::file_at;
use console::room::Room;
use console::stop::Stop;
use console::{args, out};
use engine::Answer;
use std::io;
use std::rt::Runtime;

// Says the refusal of a calendar and shows the line at fault, where the answer is a refusal.
fn stop_if_refused(rt: &impl Print, a: Answer, cal: &[u8], work: &mut [u8]) -> Result<(), Stop> {
    if let Answer::Refused(n, line) = a {
        out::refused(rt, n, line)?;
        show_fault(rt, cal, work, line)?;
        return Err(Stop::Said);
    }
    Ok(())
}

fn print_check(rt: &impl Print, n: usize, same: bool, heads: bool) -> io::Result<()> {
    let found = if same && heads { "verified" } else { "differs" };
    let bytes = if same { "is" } else { "is not" };
    let stand = if heads {
        "every line head stands"
    } else {
        "a line head does not stand"
    };
    println!(rt; "{found}: {n} bytes")?;
    println!(rt; "read back, the report {bytes} the same bytes")?;
    println!(rt; "{stand} as its fixed string")
}

// Calendar and buffers stand apart, as `demands::read_back` takes them, which docs/TRACE.md names.
fn verify(
    rt: &impl Print,
    p: Plan,
    again: i64,
    cal: &[u8],
    work: &mut [u8],
    out: &mut [u8],
) -> Result<(), Stop> {
    let mut work_again = [0u8; 40000];
    let mut out_again = [0u8; 40000];
    let t = demands::read_back(
        cal,
        p.start,
        p.end,
        p.offset,
        p.stamp,
        work,
        out,
        again,
        &mut work_again,
        &mut out_again,
    );
    stop_if_refused(rt, t.first, cal, work)?;
    stop_if_refused(rt, t.second, out, &mut work_again)?;
    let same = demands::same_reports(t.first, out, t.second, &out_again);
    print_check(rt, demands::length_of(t.first), same, t.heads)?;
    Ok(())
}

pub fn run(rt: &impl Runtime, room: &mut Room) -> Result<(), Stop> {
    let many = args::count(rt);
    if many != 7 && many != 8 {
        return out::wrong(
            rt,
            b"verify takes CALENDAR START END OFFSET STAMP, and an OFFSET-AGAIN or none",
        );
    }
    let p = read_plan(rt, 3, 4, 5, 6)?;
    // The offset of the second call: the argument behind the stamp, or the first one's.
    let again = if many == 8 {
        offset_at(rt, 7)?
    } else {
        p.offset
    };
    let cal = file_at(rt, 2, room.cal)?;
    verify(rt, p, again, cal, room.work, room.out)
}
