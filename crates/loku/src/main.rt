// The desk's program: a busy report, the check of one, a match, or report and match over many calendars. No clock is read.
//   loku report CALENDAR START END OFFSET STAMP
//   loku verify CALENDAR START END OFFSET STAMP [OFFSET-AGAIN]
//   loku match CALENDAR QUERY OFFSET
//   loku batch START END OFFSET STAMP [QUERY]   (file names on standard input, a line each)
// The first word of standard output is the status:
//   BEGIN:VCALENDAR  a report          match, no        a verdict (`match`, `no match`)
//   verified:        a report that reads back as itself    differs:    one that does not
//   refused          `refused 9: .., line 14` and the line   unreadable:      a file that cannot be read, its name and the reason
//   wrong:           a wrong or missing argument, or a query in bad hex; the usage follows
// A batch prints a line for each file, tab between two: name, verdict where a query was given, `report`, `refused` or `unreadable`,
// its length, refusal number or reason, the line at fault or 0, and the busy seconds of BUSY, BUSY-TENTATIVE and BUSY-UNAVAILABLE; then a line of
// counts that begins with `files`. A report that replaces an older one beside its file adds `replaced`, and one that cannot be
// written `not written`.
#![tactic(auto)]

mod verify;

use cli::arguments::{Command, Plan, command_of};
use console::args::{offset_at, read_plan};
use console::fault_line::show_fault;
use console::file::file_at;
use console::query::query_at;
use console::room::Room;
use console::stop::Stop;
use console::{args, out};
use engine::Answer;
use std::io;
use std::rt::Runtime;

// What was answered: a verdict, the first of these bytes, or a refusal with the line at fault.
fn print_answer(
    rt: &impl Print,
    a: Answer,
    bytes: &[u8],
    cal: &[u8],
    work: &mut [u8],
) -> io::Result<()> {
    match a {
        Answer::Verdict(true) => println!(rt; "match"),
        Answer::Verdict(false) => println!(rt; "no match"),
        Answer::Length(n) => rt.write_all(bytes.get(..n).unwrap_or(&[])),
        Answer::Refused(n, line) => {
            out::refused(rt, n, line)?;
            show_fault(rt, cal, work, line)
        }
    }
}

// Calendar and buffers stand apart, as `engine::report` takes them.
fn print_report(
    rt: &impl Print,
    p: Plan,
    cal: &[u8],
    work: &mut [u8],
    out: &mut [u8],
) -> io::Result<()> {
    let a = engine::report(cal, p.start, p.end, p.offset, p.stamp, work, out);
    print_answer(rt, a, out, cal, work)
}

fn report(rt: &impl Runtime, room: &mut Room) -> Result<(), Stop> {
    if args::count(rt) != 7 {
        return out::wrong(rt, b"report takes CALENDAR START END OFFSET STAMP");
    }
    let p = read_plan(rt, 3, 4, 5, 6)?;
    let cal = file_at(rt, 2, room.cal)?;
    print_report(rt, p, cal, room.work, room.out)?;
    Ok(())
}

fn match_query(rt: &impl Runtime, query: &mut [u8], room: &mut Room) -> Result<(), Stop> {
    if args::count(rt) != 5 {
        return out::wrong(rt, b"match takes CALENDAR QUERY OFFSET");
    }
    let offset = offset_at(rt, 4)?;
    let query = query_at(rt, 3, room.work, query)?;
    let cal = file_at(rt, 2, room.cal)?;
    let a = engine::matches(cal, query, offset, room.work);
    print_answer(rt, a, query, cal, room.work)?;
    Ok(())
}

// Query buffer and room are two: a query in hex is read through the room's work buffer. With the runtime in one struct, each command would take them apart.
fn run(rt: &impl Runtime, query: &mut [u8], room: &mut Room) -> Result<(), Stop> {
    let mut word = [0u8; 16];
    match command_of(args::word_at(rt, 1, &mut word)) {
        Some(Command::Report) => report(rt, room),
        Some(Command::Verify) => verify::run(rt, room),
        Some(Command::Match) => match_query(rt, query, room),
        Some(Command::Batch) => batch::batch::run(rt, query, room),
        None => out::wrong(rt, b"the first word is report, verify, match or batch"),
    }
}

fn main(rt: HostRuntime) -> io::Result<()> {
    let mut query = [0u8; 16384];
    // The calendar's buffer is longer than any calendar that is answered, and a report is at most 35,006 bytes long.
    let mut cal = [0u8; 131072];
    let mut work = [0u8; 131072];
    let mut out = [0u8; 40000];
    let mut room = Room {
        cal: &mut cal,
        work: &mut work,
        out: &mut out,
    };
    match run(&rt, &mut query, &mut room) {
        Ok(()) => Ok(()),
        Err(Stop::Said) => Ok(()),
        Err(Stop::Io(error)) => Err(error),
    }
}
