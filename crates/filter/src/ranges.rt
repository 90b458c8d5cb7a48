// Is a block in a time range, from a up to, but not including, b?
// A block with both ends is tested by them alone, any other by its periods.
// The range is two numbers, the context stands beside it, and a line goes with its name's length:
// docs/TRACE.md names `bounds_in`, `lines_in` and `property::gives_periods`, which take them so.
ghost use Rattle.std.specs.Prelude.{◌≡◌, true, length};
ghost use Rattle.line.specs.Reading.{name_of, line_of};
ghost use Rattle.nesting.specs.Components.{properties_in};
ghost use Rattle.values.specs.Times.{ContextGood};
ghost use Rattle.index.specs.Index.{Indexed};
ghost use Rattle.structure.specs.Rows.{RowOf, component_by};
ghost use Rattle.calendar.specs.Meaning.{block_periods};
ghost use Rattle.calendar.specs.Periods.{periods_from};
ghost use Rattle.recurrence.specs.TimeRange.{periods_overlap, block_in};
ghost use Rattle.filter.specs.Ranges.{line_in, lines_in, EndsOutside};

use calendar::period_list;
use events::Block;
use line::read;
use recurrence::time_range;
use structure::calendar::Calendar;
use structure::items::Item;
use values::times::Context;

// Does some period of a value overlap the range?
fn value_in(v: &[u8], a: u64, b: u64) -> bool
    ensures { result ≡ periods_overlap a b (periods_from v.now 0) }
{
    let mut at: usize = 0;
    while let Some((p, next)) = period_list::next_period(v, at) {
        if time_range::overlaps(a, b, p.start, p.end) {
            return true;
        }
        at = next;
    }
    false
}

// Does some period of a line, whose name is n bytes long, overlap the range?
fn line_in(line: &[u8], n: usize, c: Context, a: u64, b: u64) -> bool
    requires { n ≡ length (name_of line.now) }
    ensures { result ≡ line_in c a b (line_of line.now) }
{
    if property::gives_periods(line, n) {
        value_in(read::value(line), a, b)
    } else {
        false
    }
}

// Does some period of the lines directly in the component of row k overlap the range?
fn lines_in(cal: &Calendar, k: usize, c: Context, a: u64, b: u64) -> bool
    requires context_good { ContextGood c }
    requires indexed { Indexed cal.now.text.now cal.now.index.now }
    requires row_of { RowOf cal.now.text.now cal.now.rows.now k }
    ensures { result ≡ lines_in c a b (properties_in (component_by cal.now.text.now cal.now.rows.now k).items) }
{
    let mut i = cal.first_line(k);
    let mut row = k + 1;
    let stop = cal.line_behind(k) - 1;
    let end = cal.next_row(k);
    // A `loop`: a line is passed by one, an inner component by its rows.
    loop {
        match cal.item_at(i, row, stop, end) {
            Item::Property => {
                let n = cal.name_length(i);
                if line_in(cal.line_at(i), n, c, a, b) {
                    return true;
                }
                i += 1;
            }
            Item::Inner(next, after) => {
                i = next;
                row = after;
            }
            Item::Done => return false,
        }
    }
}

// Is the block of row k, whose ends these are, in the range?
pub fn bounds_in(x: Block, cal: &Calendar, k: usize, c: Context, a: u64, b: u64) -> bool
    requires context_good { ContextGood c }
    requires indexed { Indexed cal.now.text.now cal.now.index.now }
    requires row_of { RowOf cal.now.text.now cal.now.rows.now k }
    ensures { result ≡ block_in x (block_periods c (properties_in (component_by cal.now.text.now cal.now.rows.now k).items)) a b }
{
    let start = x.start;
    let end = x.end;
    match start {
        Some(y) => match end {
            Some(z) => time_range::between_in(a, b, y, z),
            None => lines_in(cal, k, c, a, b),
        },
        None => lines_in(cal, k, c, a, b),
    }
}

// Has the block both ends, and do they stand outside the range? Then no line of it need be read.
pub fn ends_outside(x: Block, a: u64, b: u64) -> bool
    ensures { result ≡ true → EndsOutside x a b }
{
    let start = x.start;
    let end = x.end;
    match start {
        Some(y) => match end {
            Some(z) => !time_range::between_in(a, b, y, z),
            None => false,
        },
        None => false,
    }
}
