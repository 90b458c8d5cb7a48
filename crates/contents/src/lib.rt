// The components right below VCALENDAR, each read once: refusals 8 to 10, the event or block as a row of numbers, and the busy pieces of stated periods.
// Lines and components are found by index and rows.
// Columns are lent as slices with counts and places in them, and their lengths and room are clauses (no heap); the range is two numbers, and the context stands beside it:
// docs/TRACE.md names `read_contents` and `walks::read_components`, which take them so, and a struct of the columns would want a clause on each `&mut` in it.
#![tactic(auto)]

pub mod alone;
pub mod linking;
pub mod walks;

ghost use Rattle.std.specs.Prelude.{◌≡◌, ◌+◌, ◌-◌, ◌*◌, ◌≤◌, ◌<◌, length, get_or};
ghost use Rattle.time.specs.Limits.{last_second};
ghost use Rattle.values.specs.Times.{ContextGood};
ghost use Rattle.index.specs.Index.{Indexed};
ghost use Rattle.structure.specs.Rows.{RowOf, component_by, FileRows};
ghost use Rattle.calendar.specs.Meaning.{component_scope};
ghost use Rattle.pieces.specs.Columns.{Room};
ghost use Rattle.contents.specs.Contents.{ExcludedRoom, IdentitySmall, EventEntered, EntryIs, ContentsAre};

use calendar::{LineError, faults};
use events::{Event, rules};
use identities::IdentityRead;
use property::Scope;
use structure::calendar::Calendar;
use values::times::Context;

// What one component without a fault adds.
#[derive(Clone, Copy)]
pub struct EntryRead {
    // How many pieces stand; none is told where a rule is broken by itself, which is refusal 10.
    pub count: Option<usize>,
    // How many excluded seconds stand.
    pub held: usize,
}

// What all of them without a fault tell.
#[derive(Clone, Copy)]
pub struct ContentsRead {
    // The first component that breaks a rule by itself.
    pub rules: Option<usize>,
    // How many pieces stand; no more than 513 are stored.
    pub count: usize,
}

// The event of row k, by what its lines say.
fn enter_event(
    entries: &mut [u64],
    links: &mut [u32],
    k: usize,
    e: Event,
    y: IdentityRead,
    from: usize,
    m: usize,
) -> EntryRead
    requires k_in_bounds { 12 * k + 12 ≤ length entries.old }
    requires k_in_bounds_2 { 8 * k + 8 ≤ length links.old }
    requires identity_small { IdentitySmall y from }
    ensures { EventEntered entries.old links.old k e y from m entries.new links.new result }
{
    events::rows::put_event(entries, k, e);
    let broken = alone::breaks_alone(y, e);
    linking::put_identity(links, k, y, from, broken);
    let held = y.held;
    if broken {
        return EntryRead { count: None, held };
    }
    EntryRead {
        count: Some(m),
        held,
    }
}

// The event of row k.
fn read_event(
    column: &mut [u32],
    n: usize,
    entries: &mut [u64],
    exceptions: &mut [u32],
    held: usize,
    links: &mut [u32],
    cal: &Calendar,
    k: usize,
    c: Context,
    a: u64,
    b: u64,
) -> Result<EntryRead, LineError>
    requires room { Room column.old }
    requires n_bound { n ≤ 513 }
    requires entries_len { length entries.old ≡ 3072 }
    requires links_len { length links.old ≡ 2048 }
    requires excluded_room { ExcludedRoom cal.now.text.now cal.now.index.now (get_or cal.now.rows.now (4 * k) 0) exceptions.old held }
    requires context_good { ContextGood c }
    requires indexed { Indexed cal.now.text.now cal.now.index.now }
    requires row_of { RowOf cal.now.text.now cal.now.rows.now k }
    requires k_value { component_scope (component_by cal.now.text.now cal.now.rows.now k) ≡ Scope.Event }
    requires a_lt_b { (a < b) × (b ≤ last_second) }
    ensures { EntryIs c cal.now.text.now cal.now.index.now (component_by cal.now.text.now cal.now.rows.now k) k (get_or cal.now.rows.now (4 * k + 1) 0 - 1) a b n held (record { pieces = column.old; entries = entries.old; excluded = exceptions.old; links = links.old }) (record { pieces = column.new; entries = entries.new; excluded = exceptions.new; links = links.new }) result }
{
    let read = component_lines::read_lines(
        column,
        n,
        exceptions,
        held,
        cal,
        k,
        Scope::Event,
        c,
        a,
        b,
    )?;
    let y = read.identity;
    match rules::event_by(read.properties) {
        Some(e) => Ok(enter_event(entries, links, k, e, y, held, read.count)),
        None => {
            linking::put_identity(links, k, y, held, true);
            Ok(EntryRead {
                count: None,
                held: y.held,
            })
        }
    }
}

// The block of row k.
// Not one with `read_event`: they share one call, and behind it an event has a row of links and rules of its own, a block neither.
fn read_block(
    column: &mut [u32],
    n: usize,
    entries: &mut [u64],
    exceptions: &mut [u32],
    held: usize,
    links: &mut [u32],
    cal: &Calendar,
    k: usize,
    c: Context,
    a: u64,
    b: u64,
) -> Result<EntryRead, LineError>
    requires room { Room column.old }
    requires n_bound { n ≤ 513 }
    requires entries_len { length entries.old ≡ 3072 }
    requires links_len { length links.old ≡ 2048 }
    requires excluded_room { ExcludedRoom cal.now.text.now cal.now.index.now (get_or cal.now.rows.now (4 * k) 0) exceptions.old held }
    requires context_good { ContextGood c }
    requires indexed { Indexed cal.now.text.now cal.now.index.now }
    requires row_of { RowOf cal.now.text.now cal.now.rows.now k }
    requires k_value { component_scope (component_by cal.now.text.now cal.now.rows.now k) ≡ Scope.FreeBusy }
    requires a_lt_b { (a < b) × (b ≤ last_second) }
    ensures { EntryIs c cal.now.text.now cal.now.index.now (component_by cal.now.text.now cal.now.rows.now k) k (get_or cal.now.rows.now (4 * k + 1) 0 - 1) a b n held (record { pieces = column.old; entries = entries.old; excluded = exceptions.old; links = links.old }) (record { pieces = column.new; entries = entries.new; excluded = exceptions.new; links = links.new }) result }
{
    let read = component_lines::read_lines(
        column,
        n,
        exceptions,
        held,
        cal,
        k,
        Scope::FreeBusy,
        c,
        a,
        b,
    )?;
    let stated = read.count;
    let held = read.identity.held;
    match rules::block_by(read.properties) {
        Some(x) => {
            events::rows::put_block(entries, k, x);
            Ok(EntryRead {
                count: Some(stated),
                held,
            })
        }
        None => Ok(EntryRead { count: None, held }),
    }
}

// The component of row k: only events and blocks have lines that are read.
fn read_entry(
    column: &mut [u32],
    n: usize,
    entries: &mut [u64],
    exceptions: &mut [u32],
    held: usize,
    links: &mut [u32],
    cal: &Calendar,
    k: usize,
    c: Context,
    a: u64,
    b: u64,
) -> Result<EntryRead, LineError>
    requires room { Room column.old }
    requires n_bound { n ≤ 513 }
    requires entries_len { length entries.old ≡ 3072 }
    requires links_len { length links.old ≡ 2048 }
    requires excluded_room { ExcludedRoom cal.now.text.now cal.now.index.now (get_or cal.now.rows.now (4 * k) 0) exceptions.old held }
    requires context_good { ContextGood c }
    requires indexed { Indexed cal.now.text.now cal.now.index.now }
    requires row_of { RowOf cal.now.text.now cal.now.rows.now k }
    requires a_lt_b { (a < b) × (b ≤ last_second) }
    ensures { EntryIs c cal.now.text.now cal.now.index.now (component_by cal.now.text.now cal.now.rows.now k) k (get_or cal.now.rows.now (4 * k + 1) 0 - 1) a b n held (record { pieces = column.old; entries = entries.old; excluded = exceptions.old; links = links.old }) (record { pieces = column.new; entries = entries.new; excluded = exceptions.new; links = links.new }) result }
{
    match cal.kind_at(k) {
        1 => read_event(column, n, entries, exceptions, held, links, cal, k, c, a, b),
        2 => read_block(column, n, entries, exceptions, held, links, cal, k, c, a, b),
        _ => Ok(EntryRead {
            count: Some(n),
            held,
        }),
    }
}

// The first fault of a value, the first component that breaks a rule by itself, the rows of all events and blocks with what ties events
// to each other, and the busy pieces of stated periods from a up to, but not including, b.
// Every component is read, whatever room is left, up to a value that is at fault: it goes before any rule.
pub fn read_contents(
    column: &mut [u32],
    entries: &mut [u64],
    exceptions: &mut [u32],
    links: &mut [u32],
    cal: &Calendar,
    c: Context,
    a: u64,
    b: u64,
) -> Result<ContentsRead, LineError>
    requires room { Room column.old }
    requires entries_len { length entries.old ≡ 3072 }
    requires links_len { length links.old ≡ 2048 }
    requires s_len_bound { (length cal.now.text.now ≤ 8 * length exceptions.old) × (length exceptions.old ≤ 65536) }
    requires context_good { ContextGood c }
    requires file_rows { FileRows cal.now.text.now cal.now.index.now cal.now.rows.now }
    requires a_lt_b { (a < b) × (b ≤ last_second) }
    ensures { ContentsAre c cal.now.text.now cal.now.rows.now a b column.old (record { pieces = column.new; entries = entries.new; excluded = exceptions.new; links = links.new }) result }
{
    let m = cal.next_row(0);
    let mut rules = None;
    let mut n: usize = 0;
    let mut held: usize = 0;
    let mut k: usize = 1;
    // A `while`: a component is passed by its rows, as the row read says.
    while k < m {
        let entry = read_entry(column, n, entries, exceptions, held, links, cal, k, c, a, b)?;
        held = entry.held;
        match entry.count {
            Some(count) => {
                n = count;
            }
            None => {
                rules = faults::broken_else(rules, cal.first_line(k));
            }
        }
        k = cal.next_row(k);
    }
    Ok(ContentsRead { rules, count: n })
}
