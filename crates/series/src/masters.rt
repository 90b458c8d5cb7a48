// Masters and overrides among the rows: the first master of a UID, and whether an override names a second.
// A row that is no event's is passed over.
// A component's kind is a number, as its row in lent memory has it (no heap): 1 is an event (`is_master_of`, `is_named`).
ghost use Rattle.std.specs.Prelude.{◌≡◌};
ghost use Rattle.overrides.specs.Lists.{some};
ghost use Rattle.series.specs.VEventRows.{vevents_at, vevents_before, is_master_of, names, RowTied, Tied, OneAt, OneEach, MasterIs};

use crate::uids;
use structure::calendar::Calendar;
use values::given::Given;
use values::times::Context;

// Is row k that of a master with this UID?
fn is_master_of(cal: &Calendar, links: &[u32], k: usize, c: Context, u: &[u8]) -> bool
    requires { RowTied c cal.now.text.now cal.now.index.now cal.now.rows.now links.now k }
    ensures { result ≡ some (is_master_of u.now) (vevents_at c cal.now.text.now cal.now.rows.now k) }
{
    if cal.kind_at(k) != 1 {
        return false;
    }
    let link = identities::rows::link_at(links, k);
    let recurrence = link.recurrence;
    match recurrence {
        Given::None => uids::has_uid(cal, links, k, c, u),
        Given::One(_) => false,
        Given::Several => false,
    }
}

// Is row k that of an override with this UID, whose RECURRENCE-ID is at second x?
fn is_named(cal: &Calendar, links: &[u32], k: usize, c: Context, u: &[u8], x: u64) -> bool
    requires row_tied { RowTied c cal.now.text.now cal.now.index.now cal.now.rows.now links.now k }
    requires one_at { OneAt cal.now.rows.now links.now k }
    ensures { result ≡ some (names u.now x) (vevents_at c cal.now.text.now cal.now.rows.now k) }
{
    if cal.kind_at(k) != 1 {
        return false;
    }
    let link = identities::rows::link_at(links, k);
    let recurrence = link.recurrence;
    match recurrence {
        Given::None => false,
        Given::One(t) => {
            if t.second != x {
                return false;
            }
            uids::has_uid(cal, links, k, c, u)
        }
        Given::Several => false,
    }
}

// The first master of this UID among the rows before row m.
pub fn master_of(cal: &Calendar, links: &[u32], m: usize, c: Context, u: &[u8]) -> Option<usize>
    requires { Tied c cal.now.text.now cal.now.index.now cal.now.rows.now links.now m }
    ensures { MasterIs c cal.now.text.now cal.now.rows.now m u.now result }
{
    for k in 0..m {
        if is_master_of(cal, links, k, c, u) {
            return Some(k);
        }
    }
    None
}

// Does an override with this UID, among the rows before row m, name second x?
pub fn is_moved(cal: &Calendar, links: &[u32], m: usize, c: Context, u: &[u8], x: u64) -> bool
    requires tied { Tied c cal.now.text.now cal.now.index.now cal.now.rows.now links.now m }
    requires one_each { OneEach cal.now.rows.now links.now m }
    ensures { result ≡ some (names u.now x) (vevents_before c cal.now.text.now cal.now.rows.now m) }
{
    for k in 0..m {
        if is_named(cal, links, k, c, u, x) {
            return true;
        }
    }
    false
}
