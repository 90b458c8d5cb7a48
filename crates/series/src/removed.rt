// The starts that are taken away from an event: its exceptions, and what overrides of its UID name.
ghost use Rattle.std.specs.Prelude.{◌≡◌, ◌+◌, ◌-◌, ◌≤◌, length};
ghost use Rattle.std.proofs.lemmas.List.Edits.{sets};
ghost use Rattle.identities.specs.LinkRows.{link_at};
ghost use Rattle.series.specs.Removed.{Takeable, SecondsStored, SecondsOrdered, moved_at, removed_at};

use crate::columns::EventColumns;
use crate::{moved, uids};
use ascii::copying::copy_over;
use structure::calendar::Calendar;
use values::given::Given;
use values::times::Context;

// Copies the seconds to the start of a column.
fn store_seconds(out: &mut [u32], l: &[u32])
    requires { length l.now ≤ length out.old }
    ensures { out.new ≡ sets out.old 0 l.now }
{
    copy_over(&mut out[..l.len()], l);
}

// What overrides name of the event of row k, whose link has this UID, stored from place n on; where that ends.
// The column is lent with the place where it goes on (no heap).
fn store_named(
    out: &mut [u32],
    n: usize,
    cal: &Calendar,
    events: &EventColumns,
    k: usize,
    m: usize,
    c: Context,
    uid: Given<usize>,
) -> usize
    requires takeable { Takeable c cal.now.text.now cal.now.index.now cal.now.rows.now events.now.links.now events.now.exceptions.now k m }
    requires uid_value { uid ≡ (link_at events.now.links.now k).uid }
    requires m_in_bounds { n + m ≤ length out.old }
    ensures { SecondsStored (moved_at c cal.now.text.now cal.now.rows.now k m) out.old n out.new result }
{
    match uid {
        Given::None => n,
        Given::One(i) => {
            let u = uids::uid_at(cal, i);
            moved::store_moved(out, n, cal, events.links, m, c, u)
        }
        Given::Several => n,
    }
}

// All that is taken away from the event of row k, stored from the start of the column; how many seconds that are.
pub fn store_removed(
    out: &mut [u32],
    cal: &Calendar,
    events: &EventColumns,
    k: usize,
    m: usize,
    c: Context,
) -> usize
    requires takeable { Takeable c cal.now.text.now cal.now.index.now cal.now.rows.now events.now.links.now events.now.exceptions.now k m }
    requires m_in_bounds { (link_at events.now.links.now k).to - (link_at events.now.links.now k).from + m ≤ length out.old }
    ensures { SecondsStored (removed_at c cal.now.text.now cal.now.rows.now k m) out.old 0 out.new result }
{
    let link = identities::rows::link_at(events.links, k);
    let recurrence = link.recurrence;
    match recurrence {
        Given::None => {
            let uid = link.uid;
            let from = link.from;
            let to = link.to;
            store_seconds(out, &events.exceptions[from..to]);
            store_named(out, to - from, cal, events, k, m, c, uid)
        }
        Given::One(_) => 0,
        Given::Several => 0,
    }
}

// The same in order; `spare` is what putting in order needs.
pub fn removed_in_order(
    out: &mut [u32],
    spare: &mut [u32],
    cal: &Calendar,
    events: &EventColumns,
    k: usize,
    m: usize,
    c: Context,
) -> usize
    requires takeable { Takeable c cal.now.text.now cal.now.index.now cal.now.rows.now events.now.links.now events.now.exceptions.now k m }
    requires m_in_bounds { (link_at events.now.links.now k).to - (link_at events.now.links.now k).from + m ≤ length out.old }
    requires out_in_bounds { length out.old ≤ length spare.old }
    ensures { SecondsOrdered (removed_at c cal.now.text.now cal.now.rows.now k m) out.new result }
{
    let n = store_removed(out, cal, events, k, m, c);
    seconds::sort(&mut out[..n], spare);
    n
}
