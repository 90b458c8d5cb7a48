// Refusal 10 of a calendar: each component was asked by itself, and here the events before the first that is broken so are asked beside others.
ghost use Rattle.std.specs.Prelude.{◌≡◌, get_or};
ghost use Rattle.values.specs.Times.{ContextGood};
ghost use Rattle.structure.specs.Rows.{component_by, FileRows};
ghost use Rattle.calendar.specs.Meaning.{component_scope, components_of, rule_fault};
ghost use Rattle.calendar.specs.Passes.{alone_fault, broken_beside};
ghost use Rattle.series.specs.LinkRows.{LinkRows};
ghost use Rattle.series.specs.VEventRows.{vevents_before};
ghost use Rattle.series.specs.Prints.{Printed};
ghost use Rattle.series.specs.Beside.{Linked};
ghost use Rattle.series.specs.Stopping.{stop_line, Reached};

use crate::columns::EventColumns;
use crate::prints::Fingerprints;
use crate::{beside, prints};
use structure::calendar::Calendar;
use values::times::Context;

fn stop_line(alone: Option<usize>) -> usize
    ensures { result ≡ stop_line alone }
{
    match alone {
        None => 65536,
        Some(n) => n,
    }
}

// Does the component of row k break a rule beside others?
// Kind 1 is an event: a number, as the row in lent memory has it (no heap).
fn row_breaks(
    cal: &Calendar,
    events: &EventColumns,
    known: &Fingerprints,
    k: usize,
    m: usize,
    c: Context,
) -> bool
    requires printed { Printed c cal.now.text.now cal.now.rows.now known.now.prints.now known.now.marks.now m }
    requires linked { Linked c cal.now.text.now cal.now.index.now cal.now.rows.now events.now.entries.now events.now.links.now events.now.exceptions.now m }
    requires reached { Reached c cal.now.text.now cal.now.rows.now events.now.links.now k m }
    ensures { result ≡ broken_beside c (vevents_before c cal.now.text.now cal.now.rows.now k) (vevents_before c cal.now.text.now cal.now.rows.now m) (component_scope (component_by cal.now.text.now cal.now.rows.now k)) (component_by cal.now.text.now cal.now.rows.now k) }
{
    if cal.kind_at(k) != 1 {
        return false;
    }
    beside::breaks_beside(cal, events, known, k, m, c)
}

// The first component that breaks a rule, where `alone` is the first that does so by itself, and these are the fingerprints of UIDs.
fn first_fault(
    cal: &Calendar,
    events: &EventColumns,
    known: &Fingerprints,
    m: usize,
    c: Context,
    alone: Option<usize>,
) -> Option<usize>
    requires file_rows { FileRows cal.now.text.now cal.now.index.now cal.now.rows.now }
    requires m_value { m ≡ get_or cal.now.rows.now 2 0 }
    requires linked { Linked c cal.now.text.now cal.now.index.now cal.now.rows.now events.now.entries.now events.now.links.now events.now.exceptions.now m }
    requires printed { Printed c cal.now.text.now cal.now.rows.now known.now.prints.now known.now.marks.now m }
    requires alone_value { alone ≡ alone_fault c (components_of cal.now.text.now) }
    ensures { result ≡ rule_fault c (components_of cal.now.text.now) }
{
    let stop = stop_line(alone);
    let mut k: usize = 1;
    // A `while`: the next component beside this one is some rows on, as the row read says.
    while k < m {
        let line = cal.first_line(k);
        if stop <= line {
            return alone;
        }
        if row_breaks(cal, events, known, k, m, c) {
            return Some(line);
        }
        k = cal.next_row(k);
    }
    alone
}

// The same with memory of its own for the fingerprints.
// Fixed memory: the engine's crates use no heap.
pub fn rule_fault(
    cal: &Calendar,
    events: &EventColumns,
    c: Context,
    alone: Option<usize>,
) -> Option<usize>
    requires file_rows { FileRows cal.now.text.now cal.now.index.now cal.now.rows.now }
    requires context_good { ContextGood c }
    requires link_rows { LinkRows c cal.now.text.now cal.now.rows.now events.now.entries.now events.now.links.now events.now.exceptions.now (get_or cal.now.rows.now 2 0) }
    requires alone_value { alone ≡ alone_fault c (components_of cal.now.text.now) }
    ensures { result ≡ rule_fault c (components_of cal.now.text.now) }
{
    let m = cal.next_row(0);
    let mut prints = [0u16; 320];
    let mut marks = [0u8; 256];
    let mut notes = [0u8; 1024];
    prints::fill_prints(&mut prints, &mut marks, &mut notes, cal, events.links, m, c);
    let known = Fingerprints {
        prints: &prints,
        marks: &marks,
    };
    first_fault(cal, events, &known, m, c, alone)
}
