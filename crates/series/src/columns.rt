// The starts that are taken away from all events, in one column: those of row k stand from place k up to place k + 1, in order.
// Whoever asks for the starts of an event gets its part of the column.
// A component's kind is a number, as its row in lent memory has it (no heap): 1 is an event (`takes_nothing`, `fill_row`).
ghost use Rattle.std.specs.Prelude.{◌≡◌, ◌+◌, ◌*◌, ◌≤◌, ◌<◌, length, get_or};
ghost use Rattle.series.specs.Columns.{gone_at, PartAt, RemovedRows, Removable, RowFillable, RowFilled, NothingIf, NothingBefore};

use crate::removed;
use structure::calendar::Calendar;
use values::given::Given;
use values::times::Context;

// What ties events to each other, row by row those of a calendar's components: their entries and links, and the column of excluded seconds.
#[derive(Clone, Copy)]
pub struct EventColumns<'a> {
    pub entries: &'a [u64],
    pub links: &'a [u32],
    pub exceptions: &'a [u32],
}

// The column, and the place in it from which those of each row stand.
#[derive(Clone, Copy)]
pub struct RemovedColumn<'a> {
    pub places: &'a [u32],
    pub seconds: &'a [u32],
}

impl<'a> RemovedColumn<'a> {
    // The starts that are taken away from the event of row k.
    pub fn gone_at(&self, k: usize) -> &'a [u32]
        requires { PartAt self.now.places.now self.now.seconds.now k }
        ensures { result.now ≡ gone_at self.now.places.now self.now.seconds.now k }
    {
        let from = self.places[k] as usize;
        let to = self.places[k + 1] as usize;
        &self.seconds[from..to]
    }
}

// Does the event of row k, if it is one, have neither RECURRENCE-ID nor EXDATE?
fn takes_nothing(cal: &Calendar, links: &[u32], k: usize) -> bool
    requires { (4 * k + 4 ≤ length cal.now.rows.now) × (8 * k + 8 ≤ length links.now) }
    ensures { NothingIf cal.now.rows.now links.now k result }
{
    if cal.kind_at(k) != 1 {
        return true;
    }
    let link = identities::rows::link_at(links, k);
    let recurrence = link.recurrence;
    match recurrence {
        Given::None => link.from == link.to,
        Given::One(_) => false,
        Given::Several => false,
    }
}

// Is nothing taken away from any event? So it is in most calendars, and then nobody needs the column.
pub fn is_nothing_taken(cal: &Calendar, links: &[u32], m: usize) -> bool
    requires { (4 * m ≤ length cal.now.rows.now) × (8 * m ≤ length links.now) }
    ensures { NothingBefore cal.now.rows.now links.now m result }
{
    for k in 0..m {
        if !takes_nothing(cal, links, k) {
            return false;
        }
    }
    true
}

// The starts that are taken away from row k, from the start of the column on; how many there are.
fn fill_row(
    out: &mut [u32],
    spare: &mut [u32],
    cal: &Calendar,
    events: &EventColumns,
    k: usize,
    m: usize,
    c: Context,
) -> usize
    requires row_fillable { RowFillable c cal.now.text.now cal.now.index.now cal.now.rows.now events.now.links.now events.now.exceptions.now k m (length out.old) }
    requires out_in_bounds { length out.old ≤ length spare.old }
    ensures { RowFilled c cal.now.text.now cal.now.rows.now k m out.new result }
{
    if cal.kind_at(k) != 1 {
        return 0;
    }
    removed::removed_in_order(out, spare, cal, events, k, m, c)
}

// Fills the column of all rows before row m; `spare` is what putting in order needs.
// Three lent slices, and no struct or array type: docs/TRACE.md names this function, and its arguments may not change.
pub fn fill_removed(
    places: &mut [u32],
    removed: &mut [u32],
    spare: &mut [u32],
    cal: &Calendar,
    events: &EventColumns,
    m: usize,
    c: Context,
)
    requires removable { Removable c cal.now.text.now cal.now.index.now cal.now.rows.now events.now.links.now events.now.exceptions.now m }
    requires places_len { length places.old ≡ 257 }
    requires exceptions_in_bounds { length events.now.exceptions.now + 512 ≤ length removed.old }
    requires removed_len_bound { length removed.old ≤ 65536 }
    requires removed_in_bounds { length removed.old ≤ length spare.old }
    ensures { RemovedRows c cal.now.text.now cal.now.rows.now places.new removed.new m }
{
    places[0] = 0;
    let mut at = 0;
    for k in 0..m {
        at += fill_row(&mut removed[at..], spare, cal, events, k, m, c);
        places[k + 1] = at as u32;
    }
}
