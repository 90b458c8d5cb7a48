// Two report calls in one: a report read back, and the reports of two calendars.
// Each has the whole contract of both calls, and beside it what they say together. Range, calendar and buffers stay arguments of their own,
// since `engine::report` takes them so, and the contracts of `read_back` and `compare`, which docs/CONTRACTS.md names, may not change.
#![tactic(auto)]

ghost use Rattle.std.specs.Prelude.{◌≡◌, take};
ghost use Rattle.ascii.specs.Names.{same_bytes};
ghost use Rattle.demands.specs.PairedCalls.{length_of, same_reports, ReadBackCalls, Compared};

use engine::Answer;
use report::heads;

// The answers to a report and to the report of its own bytes, and whether every line of the first has the head of a report's.
#[derive(Clone, Copy)]
pub struct ReadBack {
    pub first: Answer,
    pub second: Answer,
    pub heads: bool,
}

// The answers to two reports.
#[derive(Clone, Copy)]
pub struct Pair {
    pub first: Answer,
    pub second: Answer,
}

// The length of a report, 0 for any other answer.
// No Option: definition `length_of` says 0.
pub fn length_of(a: Answer) -> usize
    ensures { result ≡ length_of a }
{
    match a {
        Answer::Verdict(b) => 0,
        Answer::Length(n) => n,
        Answer::Refused(n, line) => 0,
    }
}

// Are the first n bytes of one the first k of the other?
// The lengths stand beside the buffers, as definition `same_reports` has them: cut before the call, both cuts would be written there.
fn same_first(a: &[u8], n: usize, b: &[u8], k: usize) -> bool
    ensures { result ≡ same_bytes (take n a.now) (take k b.now) }
{
    let n = n.min(a.len());
    let k = k.min(b.len());
    &a[..n] == &b[..k]
}

// Are both answers reports, and the first bytes of the two outputs the same report?
pub fn same_reports(first: Answer, out: &[u8], second: Answer, other: &[u8]) -> bool
    ensures { result ≡ same_reports first out.now second other.now }
{
    let n = length_of(first);
    let k = length_of(second);
    (0 < n) & (0 < k) & same_first(out, n, other, k)
}

// A report, and the report of its own bytes over the same range with the same stamp.
pub fn read_back(
    cal: &[u8],
    start: u64,
    end: u64,
    offset: i64,
    stamp: u64,
    work: &mut [u8],
    out: &mut [u8],
    offset_again: i64,
    work_again: &mut [u8],
    out_again: &mut [u8],
) -> ReadBack
    ensures { ReadBackCalls (record { terms = record { calendar = cal.now; start = start; end = end; offset = offset; stamp = stamp; work = work.old }; output = out.old }) (record { terms = record { calendar = take (length_of result.first) out.new; start = start; end = end; offset = offset_again; stamp = stamp; work = work_again.old }; output = out_again.old }) result work.new out.new work_again.new out_again.new }
{
    let first = engine::report(cal, start, end, offset, stamp, work, out);
    let n = length_of(first);
    let heads = heads::heads_match(&out[..n]);
    let second = engine::report(
        &out[..n],
        start,
        end,
        offset_again,
        stamp,
        work_again,
        out_again,
    );
    ReadBack {
        first,
        second,
        heads,
    }
}

// The reports of two calendars over one range with one stamp.
pub fn compare(
    start: u64,
    end: u64,
    stamp: u64,
    cal: &[u8],
    offset: i64,
    work: &mut [u8],
    out: &mut [u8],
    other: &[u8],
    offset_other: i64,
    work_other: &mut [u8],
    out_other: &mut [u8],
) -> Pair
    ensures { Compared (record { terms = record { calendar = cal.now; start = start; end = end; offset = offset; stamp = stamp; work = work.old }; output = out.old }) (record { terms = record { calendar = other.now; start = start; end = end; offset = offset_other; stamp = stamp; work = work_other.old }; output = out_other.old }) result work.new out.new work_other.new out_other.new }
{
    let first = engine::report(cal, start, end, offset, stamp, work, out);
    let second = engine::report(
        other,
        start,
        end,
        offset_other,
        stamp,
        work_other,
        out_other,
    );
    Pair { first, second }
}
