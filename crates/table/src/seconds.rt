// The busy seconds of a table.
// Its periods never touch, so their lengths add up.
ghost use Rattle.std.specs.Prelude.{◌≡◌, ◌+◌, ◌-◌, ◌≤◌, length};
ghost use Rattle.table.specs.Tables.{starts_of, ends_of, listed, table_at};
ghost use Rattle.table.specs.Seconds.{seconds_in};

use crate::Span;

// The seconds of so many rows, from row `first` on.
// By `first` and `count`, as the contract and definition `table_at` name rows: three tables stand in one lent slice.
pub fn seconds_in(spans: &[Span], first: usize, count: usize) -> u64
    requires count_in_bounds { first + count ≤ length spans.now }
    requires count_bound { count ≤ 512 }
    ensures { result ≡ seconds_in (listed (table_at first count (starts_of spans.now) (ends_of spans.now))) }
{
    let mut sum: u64 = 0;
    for i in first..first + count {
        sum += u64::from(spans[i].end.saturating_sub(spans[i].start));
    }
    sum
}
