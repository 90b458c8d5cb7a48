// Many calendars: their names on standard input, a batch line each, and each report beside its file.
// The engine answers; here answers are counted and printed.
use arrayvec::ArrayVec;
use cli::arguments::Plan;
use console::args;
use console::file::{Reason, Saved, read_file, save_file, tell};
use console::out::wrong;
use console::query::query_at;
use console::room::Room;
use console::stop::Stop;
use engine::{Answer, ReportSeconds};
use std::io::Read;
use std::rt::{Files, Runtime};
use std::{fmt, io};

// What each calendar is asked: a report, and a match where there is a query.
#[derive(Clone, Copy)]
struct Asked<'a> {
    plan: Plan,
    query: Option<&'a [u8]>,
}

// What became of a file.
#[derive(Clone, Copy)]
enum Outcome {
    Report,
    Refused,
    Unreadable,
}

#[derive(Clone, Copy)]
struct Tally {
    files: u64,
    reports: u64,
    refused: u64,
    unreadable: u64,
}

impl Tally {
    fn add(&mut self, o: Outcome) {
        self.files = self.files.wrapping_add(1);
        match o {
            Outcome::Report => self.reports = self.reports.wrapping_add(1),
            Outcome::Refused => self.refused = self.refused.wrapping_add(1),
            Outcome::Unreadable => self.unreadable = self.unreadable.wrapping_add(1),
        }
    }
}

impl fmt::Display for Tally {
    fn fmt<W: fmt::Write>(&self, f: &mut fmt::Formatter<W>) -> fmt::Result {
        write!(
            f,
            "files\t{}\treports\t{}\trefused\t{}\tunreadable\t{}",
            self.files, self.reports, self.refused, self.unreadable
        )
    }
}

// The verdict's column, where a query was given.
fn print_verdict(rt: &impl Print, a: Answer) -> io::Result<()> {
    match a {
        Answer::Verdict(true) => print!(rt; "\tmatch"),
        Answer::Verdict(false) => print!(rt; "\tno match"),
        Answer::Length(n) => print!(rt; "\treport\t{n}"),
        Answer::Refused(n, 0) => print!(rt; "\trefused {n}"),
        Answer::Refused(n, line) => print!(rt; "\trefused {n} line {line}"),
    }
}

// The name of the report beside a file.
fn report_name<'a>(path: &'a mut [u8; 4104], name: &[u8]) -> Option<&'a [u8]> {
    let k = name.len();
    path.get_mut(..k)?.copy_from_slice(name);
    path.get_mut(k..)?.get_mut(..7)?.copy_from_slice(b".report");
    path.get(..k + 7)
}

// A last column where the report is not a new file.
fn save_beside(
    rt: &(impl Files + Print + Eprint + Alloc),
    name: &[u8],
    report: &[u8],
) -> io::Result<()> {
    let mut path = [0u8; 4104];
    let Some(path) = report_name(&mut path, name) else {
        return print!(rt; "\tnot written");
    };
    match save_file(rt, path, report) {
        Ok(Saved::New) => Ok(()),
        Ok(Saved::Replaced) => print!(rt; "\treplaced"),
        Err(error) => {
            tell(rt, path, error)?;
            print!(rt; "\tnot written")
        }
    }
}

// The columns of a report: its length, no line at fault, and the seconds of the three busy types.
fn print_report(rt: &impl Print, length: usize, r: ReportSeconds) -> io::Result<()> {
    print!(rt;
        "\treport\t{length}\t0\t{}\t{}\t{}",
        r.busy, r.tentative, r.unavailable
    )
}

// The columns behind the verdict.
// Calendar and buffers stand apart, as `engine::report_seconds` takes them, which docs/TRACE.md names.
fn report(
    rt: &(impl Files + Print + Eprint + Alloc),
    name: &[u8],
    p: Plan,
    cal: &[u8],
    work: &mut [u8],
    out: &mut [u8],
) -> io::Result<Outcome> {
    let r = engine::report_seconds(cal, p.start, p.end, p.offset, p.stamp, work, out);
    match r.written {
        Err(e) => {
            print!(rt; "\trefused\t{}\t{}\t0\t0\t0", e.number, e.line)?;
            Ok(Outcome::Refused)
        }
        Ok(length) => {
            print_report(rt, length, r)?;
            match out.get(..length) {
                Some(report) => save_beside(rt, name, report)?,
                None => print!(rt; "\tnot written")?,
            }
            Ok(Outcome::Report)
        }
    }
}

// The columns of a file that could not be read.
fn print_unread(rt: &impl Print, asked: Asked, reason: Reason) -> io::Result<Outcome> {
    if asked.query.is_some() {
        print!(rt; "\t-")?;
    }
    print!(rt; "\tunreadable\t{reason}\t0\t0\t0\t0")?;
    Ok(Outcome::Unreadable)
}

// A file's batch line.
fn one(
    rt: &(impl Files + Print + Eprint + Alloc),
    name: &[u8],
    asked: Asked,
    room: &mut Room,
) -> io::Result<Outcome> {
    rt.write_all(name)?;
    match read_file(rt, name, room.cal) {
        Ok(cal) => {
            if let Some(query) = asked.query {
                print_verdict(
                    rt,
                    engine::matches(cal, query, asked.plan.offset, room.work),
                )?;
            }
            report(rt, name, asked.plan, cal, room.work, room.out)
        }
        Err(error) => print_unread(rt, asked, tell(rt, name, error)?),
    }
}

// The end of a line: an empty one is passed over.
fn end_line(
    rt: &(impl Files + Print + Eprint + Alloc),
    name: &[u8],
    asked: Asked,
    room: &mut Room,
    tally: &mut Tally,
) -> io::Result<()> {
    if name.is_empty() {
        return Ok(());
    }
    tally.add(one(rt, name, asked, room)?);
    println!(rt)
}

// Block after block, as many as can be; the last line may lack its end.
fn run_all(rt: &impl Runtime, asked: Asked, room: &mut Room) -> io::Result<()> {
    let mut tally = Tally {
        files: 0,
        reports: 0,
        refused: 0,
        unreadable: 0,
    };
    let mut name = ArrayVec::<u8, 4096>::new();
    let mut block = [0u8; 4096];
    let mut input = rt.reader();
    for _ in 0..u64::MAX {
        let n = input.read(&mut block)?;
        if n == 0 {
            break;
        }
        for &b in &block[..n] {
            if b == b'\n' {
                end_line(rt, &name, asked, room, &mut tally)?;
                name.clear();
            } else {
                // A name that is too long for the system stays so.
                let _ = name.try_push(b);
            }
        }
    }
    end_line(rt, &name, asked, room, &mut tally)?;
    println!(rt; "{tally}")
}

// Query buffer and room are two: a query in hex is read through the room's work buffer. With the runtime in one struct, they would be taken apart here.
pub fn run(rt: &impl Runtime, query: &mut [u8], room: &mut Room) -> Result<(), Stop> {
    let many = args::count(rt);
    if many != 6 && many != 7 {
        return wrong(
            rt,
            b"batch takes START END OFFSET STAMP, and a QUERY or none",
        );
    }
    let plan = args::read_plan(rt, 2, 3, 4, 5)?;
    if many == 6 {
        run_all(rt, Asked { plan, query: None }, room)?;
        return Ok(());
    }
    let query = Some(query_at(rt, 6, room.work, query)?);
    run_all(rt, Asked { plan, query }, room)?;
    Ok(())
}
