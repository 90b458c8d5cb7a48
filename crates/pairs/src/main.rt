// Runs the calls made in pairs on cases of a report: one a line on standard input (`cases::case`), the answers on standard output.
// A line for each case: its report read back at the offset with the other sign. A line for each two that follow one another: their reports
// over the range of the first, with its stamp. Every buffer is filled with 0xA5 before the call; a match is passed over.
#![tactic(auto)]

mod told;

use arrayvec::ArrayVec;
use cases::case::{CALENDAR, Call, Case, Numbers};
use cases::run::Answering;
use std::io;
use told::{Told, told_heads, told_same};

// The case before the one that is answered, where there is one, and its calendar.
// The calendar stands beside the Option: in it, each case would fill and move the whole array.
#[derive(Drop)]
struct Pairs {
    before: Option<Numbers>,
    cal: ArrayVec<u8, CALENDAR>,
}

impl Answering for Pairs {
    fn answer(&mut self, rt: &impl Print, case: &Case<'_>) -> io::Result<()> {
        if case.call == Call::Match {
            return Ok(());
        }
        read_back(rt, case.numbers, case.cal)?;
        if let Some(before) = self.before {
            compare(rt, before, &self.cal, case.numbers, case.cal)?;
        }
        self.keep(case);
        Ok(())
    }
}

impl Pairs {
    // The case is kept for the one behind it.
    fn keep(&mut self, case: &Case<'_>) {
        self.cal.clear();
        // A calendar that was read has room there.
        if self.cal.try_extend_from_slice(case.cal).is_ok() {
            self.before = Some(case.numbers);
        }
    }
}

// A case whose offset 64 bits do not hold both ways is told before any buffer is filled.
fn read_back(rt: &impl Print, numbers: Numbers, cal: &[u8]) -> io::Result<()> {
    match both_ways(numbers.offset) {
        Some((offset, again)) => read_back_with(rt, numbers, offset, again, cal),
        None => println!(rt; "{}", numbers.unreadable()),
    }
}

// With buffers as long as the case asks for.
fn read_back_with(
    rt: &impl Print,
    numbers: Numbers,
    offset: i64,
    again: i64,
    cal: &[u8],
) -> io::Result<()> {
    let mut work = [0xA5u8; 131072];
    let mut out = [0xA5u8; 131072];
    let (Some(work), Some(out)) = (work.get_mut(..numbers.work), out.get_mut(..numbers.out)) else {
        return println!(rt; "{}", numbers.unreadable());
    };
    read_back_in(rt, numbers, offset, again, cal, work, out)
}

// The offset and the one with the other sign, where 64 bits hold both.
fn both_ways(offset: Option<i64>) -> Option<(i64, i64)> {
    let offset = offset?;
    Some((offset, offset.checked_neg()?))
}

// A report is at most 35,006 bytes long.
// Calendar and buffers stand apart, as `demands::read_back` takes them, which docs/TRACE.md names.
fn read_back_in(
    rt: &impl Print,
    numbers: Numbers,
    offset: i64,
    again: i64,
    cal: &[u8],
    work: &mut [u8],
    out: &mut [u8],
) -> io::Result<()> {
    let mut work_again = [0xA5u8; 40000];
    let mut out_again = [0xA5u8; 40000];
    let calls = demands::read_back(
        cal,
        numbers.start,
        numbers.end,
        offset,
        numbers.stamp,
        work,
        out,
        again,
        &mut work_again,
        &mut out_again,
    );
    let line = numbers.line;
    let first = Told(calls.first);
    let second = Told(calls.second);
    let same = told_same(demands::same_reports(calls.first, out, calls.second, &out_again));
    let heads = told_heads(calls.heads);
    println!(rt; "{line}: {first}, read back {second}, {same}, {heads}")
}

// With buffers that are long enough for any calendar and report; no answer where an offset is too large.
fn compare(
    rt: &impl Print,
    numbers: Numbers,
    cal: &[u8],
    numbers_other: Numbers,
    other: &[u8],
) -> io::Result<()> {
    let (Some(offset), Some(offset_other)) = (numbers.offset, numbers_other.offset) else {
        return Ok(());
    };
    let mut work = [0xA5u8; 131072];
    let mut out = [0xA5u8; 40000];
    let mut work_other = [0xA5u8; 131072];
    let mut out_other = [0xA5u8; 40000];
    let calls = demands::compare(
        numbers.start,
        numbers.end,
        numbers.stamp,
        cal,
        offset,
        &mut work,
        &mut out,
        other,
        offset_other,
        &mut work_other,
        &mut out_other,
    );
    let line = numbers.line;
    let line_other = numbers_other.line;
    let first = Told(calls.first);
    let second = Told(calls.second);
    let same = told_same(demands::same_reports(calls.first, &out, calls.second, &out_other));
    println!(rt; "{line} and {line_other}: {first}, {second}, {same}")
}

fn main(rt: HostRuntime) -> io::Result<()> {
    let mut pairs = Pairs {
        before: None,
        cal: ArrayVec::new(),
    };
    cases::run::run(&rt, &mut pairs)
}
