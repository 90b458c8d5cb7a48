// The period tables of a calendar's busy pieces, one behind the other in a lent slice of spans.
// One pass over the pieces for each busy type.
// The column of pieces is numbers, as at `pieces::storing::put_piece`, lent with its count; the spans of three tables stand in one slice (no heap).
#![tactic(auto)]

ghost use Rattle.std.specs.Prelude.{◌+◌, ◌*◌, ◌≤◌, length};
ghost use Rattle.table.specs.Tables.{starts_of, ends_of, table_of};
ghost use Rattle.tables.specs.Building.{periods_at, Built, BuiltAt};

use table::{Span, Table};

// The table of the type of this place, first in the spans (a number: `BusyType` would ask more of the callers of `table_at`, which docs/TRACE.md names): each of its pieces among the first n is added.
fn table_of(spans: &mut [Span], column: &[u32], n: usize, place: u32) -> Table
    requires column_in_bounds { length (periods_at place n column.now) ≤ length spans.old }
    requires n_in_bounds { 3 * n ≤ length column.now }
    ensures { Built column.now n place (table_of result (starts_of spans.new) (ends_of spans.new)) }
{
    let mut t = Table {
        count: 0,
        passed: 0,
        start: 0,
    };
    for i in 0..n {
        let at = 3 * i;
        if column[at + 2] == place {
            t = t.add(spans, column[at], column[at + 1]);
        }
    }
    t
}

// The same from row `first` of the spans on: how many periods it has. The rows before it stay.
pub fn table_at(spans: &mut [Span], first: usize, column: &[u32], n: usize, place: u32) -> usize
    requires column_in_bounds { first + length (periods_at place n column.now) ≤ length spans.old }
    requires n_in_bounds { 3 * n ≤ length column.now }
    ensures { BuiltAt column.now n place first (starts_of spans.old) (ends_of spans.old) result (starts_of spans.new) (ends_of spans.new) }
{
    table_of(&mut spans[first..], column, n, place).count
}
