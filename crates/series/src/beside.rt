// Which rules an event breaks beside others: a master of its UID before it, an override of its second before it,
// or a RECURRENCE-ID that does not fit the master of its UID.
ghost use Rattle.std.specs.Prelude.{◌≡◌, [], ◌∷◌, ◌≤◌};
ghost use Rattle.seconds.specs.Seconds.{among};
ghost use Rattle.time.specs.Limits.{last_second};
ghost use Rattle.structure.specs.Rows.{component_by};
ghost use Rattle.events.specs.EntryRows.{event_at};
ghost use Rattle.overrides.specs.Lists.{some};
ghost use Rattle.overrides.specs.VEvents.{master_of};
ghost use Rattle.overrides.specs.Rules.{misplaced, breaks_beside};
ghost use Rattle.calendar.specs.Identities.{identity_of};
ghost use Rattle.calendar.specs.Meaning.{vevent_of};
ghost use Rattle.identities.specs.LinkRows.{link_at};
ghost use Rattle.series.specs.VEventRows.{vevents_before, is_master_of, Tied};
ghost use Rattle.series.specs.Prints.{Printed, Unshared, Markable};
ghost use Rattle.series.specs.Beside.{excluded_at, misfits, MasterKnown, Linked, Unbroken};

use crate::columns::EventColumns;
use crate::prints::Fingerprints;
use crate::{masters, uids};
use identities::RecurrenceId;
use structure::calendar::Calendar;
use values::given::Given;
use values::times::Context;

// Is x one of the seconds? They need not be in order.
fn is_among(l: &[u32], x: u64) -> bool
    ensures { result ≡ among x l.now }
{
    l.iter().any(|&s| u64::from(s) == x)
}

// Does a RECURRENCE-ID not fit the master of row k? One that breaks a rule by itself is not asked.
fn misfits(events: &EventColumns, k: usize, t: RecurrenceId) -> bool
    requires master_known { MasterKnown events.now.entries.now events.now.links.now events.now.exceptions.now k }
    requires second_le_last_second { t.second ≤ last_second }
    ensures { result ≡ misfits (link_at events.now.links.now k) (event_at events.now.entries.now k) (excluded_at events.now.links.now events.now.exceptions.now k) t }
{
    let link = identities::rows::link_at(events.links, k);
    if link.broken {
        return false;
    }
    let e = events::rows::event_at(events.entries, k);
    let kind = e.kind;
    let own = t.kind;
    let second = t.second;
    if !overrides::same_kind(own, kind) {
        return true;
    }
    if !overrides::names_instance(e, second) {
        return true;
    }
    let from = link.from;
    let to = link.to;
    is_among(&events.exceptions[from..to], second)
}

// Is there no master of this UID among the rows before row m, or does the RECURRENCE-ID not fit it?
fn is_misplaced(
    cal: &Calendar,
    events: &EventColumns,
    m: usize,
    c: Context,
    u: &[u8],
    t: RecurrenceId,
) -> bool
    requires linked { Linked c cal.now.text.now cal.now.index.now cal.now.rows.now events.now.entries.now events.now.links.now events.now.exceptions.now m }
    requires second_le_last_second { t.second ≤ last_second }
    ensures { result ≡ misplaced t.kind t.second (master_of u.now (vevents_before c cal.now.text.now cal.now.rows.now m)) }
{
    match masters::master_of(cal, events.links, m, c, u) {
        None => true,
        Some(k) => misfits(events, k, t),
    }
}

// Does a master of this UID stand before row k?
fn has_master(cal: &Calendar, links: &[u32], k: usize, c: Context, u: &[u8]) -> bool
    requires { Tied c cal.now.text.now cal.now.index.now cal.now.rows.now links.now k }
    ensures { result ≡ some (is_master_of u.now) (vevents_before c cal.now.text.now cal.now.rows.now k) }
{
    match masters::master_of(cal, links, k, c, u) {
        None => false,
        Some(_) => true,
    }
}

// Is row k that of a master whose UID no row before it has? Fingerprints tell of most, without a look at the bytes.
// Marks are numbers, as `prints::fill_prints` fills them and Markable reads them.
fn is_unshared(known: &Fingerprints, k: usize, recurrence: Given<RecurrenceId>) -> bool
    requires { Markable known.now.prints.now known.now.marks.now k }
    ensures { Unshared known.now.prints.now k recurrence result }
{
    match recurrence {
        Given::None => {
            if known.marks[k] == 0 {
                return true;
            }
            let print = known.prints[64 + k];
            fingerprints::is_new(known.prints, k, print)
        }
        Given::One(_) => false,
        Given::Several => false,
    }
}

// The event of row k has this UID alone: does it break a rule beside others?
fn breaks_by_uid(
    cal: &Calendar,
    events: &EventColumns,
    k: usize,
    m: usize,
    c: Context,
    u: &[u8],
) -> bool
    requires linked { Linked c cal.now.text.now cal.now.index.now cal.now.rows.now events.now.entries.now events.now.links.now events.now.exceptions.now m }
    requires unbroken { Unbroken cal.now.rows.now events.now.links.now k m }
    requires k_value { (identity_of c (component_by cal.now.text.now cal.now.rows.now k)).uids ≡ u.now ∷ [] }
    ensures { result ≡ breaks_beside (vevents_before c cal.now.text.now cal.now.rows.now k) (vevents_before c cal.now.text.now cal.now.rows.now m) (vevent_of c (component_by cal.now.text.now cal.now.rows.now k)) }
{
    let link = identities::rows::link_at(events.links, k);
    let recurrence = link.recurrence;
    match recurrence {
        Given::None => has_master(cal, events.links, k, c, u),
        Given::One(t) => {
            let second = t.second;
            if masters::is_moved(cal, events.links, k, c, u, second) {
                return true;
            }
            is_misplaced(cal, events, m, c, u, t)
        }
        Given::Several => false,
    }
}

// Does the event of row k break a rule beside those before it and all before row m?
pub fn breaks_beside(
    cal: &Calendar,
    events: &EventColumns,
    known: &Fingerprints,
    k: usize,
    m: usize,
    c: Context,
) -> bool
    requires printed { Printed c cal.now.text.now cal.now.rows.now known.now.prints.now known.now.marks.now m }
    requires linked { Linked c cal.now.text.now cal.now.index.now cal.now.rows.now events.now.entries.now events.now.links.now events.now.exceptions.now m }
    requires unbroken { Unbroken cal.now.rows.now events.now.links.now k m }
    ensures { result ≡ breaks_beside (vevents_before c cal.now.text.now cal.now.rows.now k) (vevents_before c cal.now.text.now cal.now.rows.now m) (vevent_of c (component_by cal.now.text.now cal.now.rows.now k)) }
{
    let link = identities::rows::link_at(events.links, k);
    let uid = link.uid;
    match uid {
        Given::None => false,
        Given::One(n) => {
            let recurrence = link.recurrence;
            if is_unshared(known, k, recurrence) {
                return false;
            }
            let u = uids::uid_at(cal, n);
            breaks_by_uid(cal, events, k, m, c, u)
        }
        Given::Several => false,
    }
}
