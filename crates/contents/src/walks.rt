// The first of refusals 8 to 10: each component by itself, then the events beside each other.
// What is left to do goes by the rows that the first walk filled.
ghost use Rattle.std.specs.Prelude.{◌≡◌, ◌*◌, ◌≤◌, ◌<◌, length};
ghost use Rattle.time.specs.Limits.{last_second};
ghost use Rattle.values.specs.Times.{ContextGood};
ghost use Rattle.structure.specs.Rows.{FileRows};
ghost use Rattle.pieces.specs.Columns.{Room};
ghost use Rattle.contents.specs.Walks.{WalksTell};

use calendar::{Refusal, faults};
use series::columns::EventColumns;
use series::passes;
use structure::calendar::Calendar;
use values::times::Context;

// The first refusal, or how many pieces of stated periods stand.
pub fn read_components(
    column: &mut [u32],
    entries: &mut [u64],
    exceptions: &mut [u32],
    links: &mut [u32],
    cal: &Calendar,
    c: Context,
    a: u64,
    b: u64,
) -> Result<usize, Refusal>
    requires room { Room column.old }
    requires entries_len { length entries.old ≡ 3072 }
    requires links_len { length links.old ≡ 2048 }
    requires s_len_bound { (length cal.now.text.now ≤ 8 * length exceptions.old) × (length exceptions.old ≤ 65536) }
    requires context_good { ContextGood c }
    requires file_rows { FileRows cal.now.text.now cal.now.index.now cal.now.rows.now }
    requires a_lt_b { (a < b) × (b ≤ last_second) }
    ensures { WalksTell c cal.now.text.now cal.now.index.now cal.now.rows.now a b column.old (record { pieces = column.new; entries = entries.new; excluded = exceptions.new; links = links.new }) result }
{
    let read = crate::read_contents(column, entries, exceptions, links, cal, c, a, b)?;
    let events = EventColumns {
        entries,
        links,
        exceptions,
    };
    let rules = passes::rule_fault(cal, &events, c, read.rules);
    faults::fault_by(Ok(()), rules)?;
    Ok(read.count)
}
