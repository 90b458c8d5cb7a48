// The period table of one busy type: its periods rise and never touch.
// Adding a piece takes the table and hands it back.
#![tactic(auto)]

pub mod seconds;

ghost use Rattle.std.specs.Prelude.{◌≡◌, ◌+◌, ◌-◌, ◌≤◌, ◌<◌, length, take};
ghost use Rattle.table.specs.Tables.{starts_of, ends_of, table_of, Added};
ghost use Rattle.table.specs.Columns.{ends_before, Passed, TookIn, Spliced};

// A span of seconds, up to, but not including, its end: four bytes each, since every report call clears room for 512.
#[derive(Clone, Copy)]
pub struct Span {
    pub start: u32,
    pub end: u32,
}

// So many periods, which stand first in a slice of spans. The slice is lent beside the table,
// since a table that held it would be copied whole each time it is handed over.
// The span added last went behind the first `passed` periods, which end before its start: one that starts no sooner
// is looked for from there on.
#[derive(Clone, Copy)]
pub struct Table {
    pub count: usize,
    pub passed: usize,
    pub start: u32,
}

// A span with what it took in, and the first row behind it.
#[derive(Clone, Copy)]
struct Widened {
    next: usize,
    span: Span,
}

// How many of the first n rows end before a second, where `passed` are known to end before `start`.
// A walk and no `partition_point`: the contract of `add`, which may not ask more, does not say that the ends rise.
fn skip(spans: &[Span], n: usize, passed: usize, start: u32, from: u32) -> usize
    requires n_in_bounds { n ≤ length spans.now }
    requires passed_bound { passed ≤ ends_before start (take n (ends_of spans.now)) }
    ensures { result ≡ ends_before from (take n (ends_of spans.now)) }
{
    let first = if start <= from { passed } else { 0 };
    for i in first..n {
        if from <= spans[i].end {
            return i;
        }
    }
    n
}

// Rows from i on that the span overlaps or touches become one with it.
fn take_in(spans: &[Span], n: usize, i: usize, from: u32, to: u32) -> Widened
    requires { (i ≤ n) × (n ≤ length spans.now) }
    ensures { TookIn (starts_of spans.now) (ends_of spans.now) n i from to result }
{
    let mut start = from;
    let mut end = to;
    for next in i..n {
        let row = spans[next];
        if end < row.start {
            return Widened {
                next,
                span: Span { start, end },
            };
        }
        start = start.min(row.start);
        end = end.max(row.end);
    }
    Widened {
        next: n,
        span: Span { start, end },
    }
}

// Of the first n rows, one stands for those from i up to j.
fn splice(spans: &mut [Span], i: usize, j: usize, n: usize, v: Span)
    requires { (i ≤ j) × (j ≤ n) × (n < length spans.old) }
    ensures { Spliced (starts_of spans.old) (starts_of spans.new) i j n v.start × Spliced (ends_of spans.old) (ends_of spans.new) i j n v.end }
{
    spans.copy_within(j..n, i + 1);
    spans[i] = v;
}

impl Table {
    // A span of seconds put in: rows that it overlaps or touches become one with it.
    pub fn add(mut self, spans: &mut [Span], from: u32, to: u32) -> Table
        requires count_in_bounds { self.count < length spans.old }
        requires passed { Passed self (ends_of spans.old) }
        ensures added { Added (table_of self (starts_of spans.old) (ends_of spans.old)) from to (table_of result (starts_of spans.new) (ends_of spans.new)) }
        ensures passed_2 { Passed result (ends_of spans.new) }
    {
        let n = self.count;
        let i = skip(spans, n, self.passed, self.start, from);
        let w = take_in(spans, n, i, from, to);
        let j = w.next;
        splice(spans, i, j, n, w.span);
        self.count = i + 1 + (n - j);
        self.passed = i;
        self.start = from;
        self
    }
}
