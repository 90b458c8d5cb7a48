// The seconds that overrides of a UID name, stored one behind the other.
ghost use Rattle.std.specs.Prelude.{◌+◌, ◌≤◌, length};
ghost use Rattle.series.specs.VEventRows.{RowTied, Tied, OneAt, OneEach};
ghost use Rattle.series.specs.Moved.{NamedIs, MovedStored};

use crate::uids;
use structure::calendar::Calendar;
use values::given::Given;
use values::times::Context;

// The second that the event of row k names, where it has this UID.
// Kind 1 is an event: a number, as the row in lent memory has it (no heap).
fn named_second(cal: &Calendar, links: &[u32], k: usize, c: Context, u: &[u8]) -> Option<u64>
    requires row_tied { RowTied c cal.now.text.now cal.now.index.now cal.now.rows.now links.now k }
    requires one_at { OneAt cal.now.rows.now links.now k }
    ensures { NamedIs c cal.now.text.now cal.now.rows.now k u.now result }
{
    if cal.kind_at(k) != 1 {
        return None;
    }
    let link = identities::rows::link_at(links, k);
    let recurrence = link.recurrence;
    match recurrence {
        Given::None => None,
        Given::One(t) => {
            if uids::has_uid(cal, links, k, c, u) {
                return Some(t.second);
            }
            None
        }
        Given::Several => None,
    }
}

// The seconds that overrides with this UID name, among the rows before row m, stored from place n on; where they end.
// The column is lent with the place where it goes on: there is no heap, and docs/TRACE.md names this function.
pub fn store_moved(
    out: &mut [u32],
    n: usize,
    cal: &Calendar,
    links: &[u32],
    m: usize,
    c: Context,
    u: &[u8],
) -> usize
    requires tied { Tied c cal.now.text.now cal.now.index.now cal.now.rows.now links.now m }
    requires one_each { OneEach cal.now.rows.now links.now m }
    requires m_in_bounds { n + m ≤ length out.old }
    ensures { MovedStored c cal.now.text.now cal.now.rows.now m u.now out.old n out.new result }
{
    let mut end = n;
    for k in 0..m {
        if let Some(x) = named_second(cal, links, k, c, u) {
            out[end] = x as u32;
            end += 1;
        }
    }
    end
}
