// Runs cases of the public calls: one a line on standard input (`cases::case`), a line with its answer on standard output.
// Both buffers are filled with 0xA5 before the call. The answer: its kind, its number, the line at fault or 0,
// Adler-32 of the whole work buffer, and of the whole output buffer.
#![tactic(auto)]

mod adler;

use adler::adler;
use cases::case::{Call, Case};
use cases::run::Answering;
use engine::Answer;
use std::{fmt, io};

// An answer as it is printed.
#[derive(Clone, Copy)]
struct Told(Answer);

impl fmt::Display for Told {
    fn fmt<W: fmt::Write>(&self, f: &mut fmt::Formatter<W>) -> fmt::Result {
        match self.0 {
            Answer::Verdict(yes) => write!(f, "verdict\t{}\t0", u8::from(yes)),
            Answer::Length(n) => write!(f, "length\t{n}\t0"),
            Answer::Refused(n, line) => write!(f, "refusal\t{n}\t{line}"),
        }
    }
}

// The buffers, of which each case has as much as it asks for.
#[derive(Drop)]
struct Replay<'a> {
    work: &'a mut [u8],
    out: &'a mut [u8],
}

impl<'a> Answering for Replay<'a> {
    fn answer(&mut self, rt: &impl Print, case: &Case<'_>) -> io::Result<()> {
        let numbers = case.numbers;
        let (Some(offset), Some(work), Some(out)) = (
            numbers.offset,
            self.work.get_mut(..numbers.work),
            self.out.get_mut(..numbers.out),
        ) else {
            return println!(rt; "{}", numbers.unreadable());
        };
        work.fill(0xA5);
        out.fill(0xA5);
        let told = Told(ask(case, offset, work, out));
        println!(rt; "{told}\t{}\t{}", adler(work), adler(out))
    }
}

// The call that the case asks for.
fn ask(case: &Case<'_>, offset: i64, work: &mut [u8], out: &mut [u8]) -> Answer {
    let Case {
        call,
        cal,
        query,
        numbers,
    } = *case;
    match call {
        Call::Match => engine::matches(cal, query, offset, work),
        Call::Report => engine::report(
            cal,
            numbers.start,
            numbers.end,
            offset,
            numbers.stamp,
            work,
            out,
        ),
    }
}

fn main(rt: HostRuntime) -> io::Result<()> {
    let mut work = [0u8; 131072];
    let mut out = [0u8; 131072];
    let mut replay = Replay {
        work: &mut work,
        out: &mut out,
    };
    cases::run::run(&rt, &mut replay)
}
