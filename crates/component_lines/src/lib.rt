// The lines directly in an event or a block: the first fault of a value, or what they say together and the busy pieces of their periods.
// A fault ends the reading, since it goes before any rule.
// Columns are lent with counts and places in them, and the room of `exceptions` is a clause (no heap); the range is two numbers, and the context stands beside it:
// docs/TRACE.md names `read_lines` and `store_value`, which take them so.
#![tactic(auto)]

ghost use Rattle.std.specs.Prelude.{◌≡◌, ◌+◌, ◌-◌, ◌*◌, ◌≤◌, length, get_or};
ghost use Rattle.time.specs.Limits.{last_second};
ghost use Rattle.values.specs.Times.{ContextGood};
ghost use Rattle.nesting.specs.Components.{properties_in};
ghost use Rattle.index.specs.Index.{Indexed};
ghost use Rattle.structure.specs.Rows.{RowOf, component_by};
ghost use Rattle.pieces.specs.Columns.{Room};
ghost use Rattle.component_lines.specs.Identities.{RoomFrom};
ghost use Rattle.component_lines.specs.Lines.{ValueIs, LinesAre};

use calendar::LineError;
use events::{ComponentProperties, properties};
use identities::IdentityRead;
use line::read;
use periods::BusyType;
use pieces::storing;
use property::{PropertyValue, Scope};
use structure::calendar::Calendar;
use structure::items::Item;
use values::rule::ValueError;
use values::times::Context;
use values::{period, time_lists};

// What the lines of a component say together, what ties it to others, and how many pieces stand.
#[derive(Clone, Copy)]
pub struct LinesRead {
    pub properties: ComponentProperties,
    pub identity: IdentityRead,
    pub count: usize,
}

// Every period of a FREEBUSY value, read and stored in one pass.
fn store_value(
    column: &mut [u32],
    first: usize,
    busy: BusyType,
    v: &[u8],
    a: u64,
    b: u64,
) -> Option<usize>
    requires room { Room column.old }
    requires first_bound { first ≤ 513 }
    requires b_le_last_second { b ≤ last_second }
    ensures { ValueIs busy v.now a b column.old first column.new result }
{
    let mut n = first;
    for item in v.split(|&b| b == 44) {
        let Some(p) = period::read_period(item) else {
            return None;
        };
        n = storing::store_period(column, n, busy, p.start, p.end, a, b);
    }
    Some(n)
}

// The lines directly in the component of row k, which is an event or a block. Each arm reads one kind of line,
// since a value that is handed on whole costs more than reading it.
pub fn read_lines(
    column: &mut [u32],
    first: usize,
    exceptions: &mut [u32],
    held: usize,
    cal: &Calendar,
    k: usize,
    scope: Scope,
    c: Context,
    a: u64,
    b: u64,
) -> Result<LinesRead, LineError>
    requires room { Room column.old }
    requires first_bound { first ≤ 513 }
    requires context_good { ContextGood c }
    requires indexed { Indexed cal.now.text.now cal.now.index.now }
    requires row_of { RowOf cal.now.text.now cal.now.rows.now k }
    requires b_le_last_second { b ≤ last_second }
    requires s_len_bound { length cal.now.text.now ≤ 8 * length exceptions.old }
    requires room_from { RoomFrom cal.now.text.now cal.now.index.now (get_or cal.now.rows.now (4 * k) 0) held }
    requires held_in_bounds { held ≤ length exceptions.old }
    ensures { LinesAre c scope cal.now.text.now cal.now.index.now (properties_in (component_by cal.now.text.now cal.now.rows.now k).items) (get_or cal.now.rows.now (4 * k + 1) 0 - 1) a b column.old first column.new exceptions.old held exceptions.new result }
{
    let stop = cal.line_behind(k) - 1;
    let last = cal.next_row(k);
    let mut n = first;
    let mut g = properties::no_properties();
    let mut y = identities::no_identity(held);
    let mut i = cal.first_line(k);
    let mut row = k + 1;
    // A `loop`: a line is passed by one, an inner component by its rows.
    loop {
        match cal.item_at(i, row, stop, last) {
            Item::Property => {
                let next = i + 1;
                let line = cal.line_at(i);
                let length = cal.name_length(i);
                match property::property_value(c, scope, line, length) {
                    Ok(PropertyValue::Nothing) => {
                        i = next;
                    }
                    Err(ValueError::Unsupported) => return Err(LineError::Unsupported(next)),
                    Err(ValueError::Bad) => return Err(LineError::Bad(next)),
                    Ok(PropertyValue::Start(t)) => {
                        g = properties::with_start(g, t);
                        i = next;
                    }
                    Ok(PropertyValue::End(t)) => {
                        g = properties::with_end(g, t);
                        i = next;
                    }
                    Ok(PropertyValue::Lasts(d)) => {
                        g = properties::with_lasts(g, d);
                        i = next;
                    }
                    Ok(PropertyValue::Repeats(r)) => {
                        g = properties::with_repeats(g, r);
                        i = next;
                    }
                    Ok(PropertyValue::HasStatus(x)) => {
                        g = properties::with_status(g, x);
                        i = next;
                    }
                    Ok(PropertyValue::Transparent(x)) => {
                        g = properties::with_transparency(g, x);
                        i = next;
                    }
                    Ok(PropertyValue::Uid) => {
                        y = identities::with_uid(y, next);
                        i = next;
                    }
                    Ok(PropertyValue::RecurrenceId(t)) => {
                        y = identities::with_recurrence(y, t);
                        i = next;
                    }
                    Ok(PropertyValue::HasExceptions(form)) => {
                        let before = y.held;
                        let kinds = y.kinds;
                        match time_lists::store_times(
                            exceptions,
                            before,
                            kinds,
                            c,
                            form,
                            read::value(line),
                        ) {
                            Some((m, more)) => {
                                y = identities::with_exceptions(y, more, m);
                                i = next;
                            }
                            None => return Err(LineError::Bad(next)),
                        }
                    }
                    Ok(PropertyValue::HasPeriods(busy)) => {
                        match store_value(column, n, busy, read::value(line), a, b) {
                            Some(m) => {
                                n = m;
                                i = next;
                            }
                            None => return Err(LineError::Bad(next)),
                        }
                    }
                }
            }
            Item::Inner(next, after) => {
                i = next;
                row = after;
            }
            Item::Done => {
                return Ok(LinesRead {
                    properties: g,
                    identity: y,
                    count: n,
                })
            }
        }
    }
}
