// What is tried of a component against a record's range: the instances of an event one by one, anything else once.
// So one search serves events, blocks and records without a range.
// A component's kind is a number, as its row in lent memory has it (no heap): 1 is an event, 2 a block (`row_outside`, `trial_in`).
// A range's number is 0 for none, as the record has it; query, calendar and column are arguments of their own, and RowSmall, Given and Here stay clauses:
// docs/TRACE.md names `ruled_out` and `trial_of`, which take them so.
ghost use Rattle.std.specs.Prelude.{◌≡◌, true, List, ℕ, ◌≤◌, ◌<◌};
ghost use Rattle.time.specs.Limits.{last_second};
ghost use Rattle.values.specs.Times.{ContextGood};
ghost use Rattle.structure.specs.Rows.{component_by};
ghost use Rattle.query_check.specs.WellFormed.{records_good};
ghost use Rattle.calendar.specs.Meaning.{component_scope};
ghost use Rattle.seconds.specs.Seconds.{Ordered};
ghost use Rattle.nesting.specs.Files.{tree_in};
ghost use Rattle.filter.specs.Tests.{whole_of, component_in, range_holds};
ghost use Rattle.filter.specs.Ranges.{Given, Here, RowSmall, RowOutside, RuledOut};
ghost use Rattle.filter.specs.Trials.{trial_passes, Tried, MoreTrials, SmallTrial, TrialOf, gone_from};

use crate::ranges;
use events::Event;
use query::Query;
use recurrence::time_range;
use structure::calendar::Calendar;
use values::times::Context;

// The trial of one component.
// No invariant: docs/TRACE.md names `first_tried`, `goes_on` and `passes`, whose argument may not change, so SmallTrial stays a clause.
#[derive(Clone, Copy)]
pub enum Trial {
    // An event's instances, against the range from the first of two seconds up to, but not including, the other.
    Instances(Event, u64, u64),
    // Once, with this outcome.
    Once(bool),
}

// Does one look at row k tell that the component is not in the range? Of a block without both ends it does not.
fn row_outside(cal: &Calendar, column: &[u64], k: usize, a: u64, b: u64) -> bool
    requires row_small { RowSmall cal.now.rows.now column.now k }
    requires a_lt_b { (a < b) × (b ≤ last_second) }
    ensures { result ≡ true → RowOutside cal.now.rows.now column.now k a b }
{
    let kind = cal.kind_at(k);
    if kind == 1 {
        let e = events::rows::event_at(column, k);
        return !time_range::starts_before(e, b, time_range::first_candidate(e, a));
    }
    if kind == 2 {
        return ranges::ends_outside(events::rows::block_at(column, k), a, b);
    }
    true
}

// The same against a record's range, 0 for none: without one nothing is ruled out.
pub fn ruled_out(q: &Query, r: usize, cal: &Calendar, column: &[u64], k: usize) -> bool
    requires q_value { records_good q.now.bytes.now q.now.sections ≡ true }
    requires r_le_count { r ≤ q.now.sections.ranges.count }
    requires row_small { RowSmall cal.now.rows.now column.now k }
    ensures { result ≡ true → RuledOut q.now.bytes.now q.now.sections r cal.now.rows.now column.now k }
{
    if r == 0 {
        return false;
    }
    let i = r - 1;
    let a = q.range_start(i);
    let b = q.range_end(i);
    row_outside(cal, column, k, a, b)
}

// The trial of the component of row k against a range.
fn trial_in(cal: &Calendar, column: &[u64], k: usize, c: Context, a: u64, b: u64) -> Trial
    requires context_good { ContextGood c }
    requires given { Given c cal.now.text.now cal.now.index.now cal.now.rows.now column.now }
    requires here { Here cal.now.text.now cal.now.rows.now k }
    requires a_lt_b { (a < b) × (b ≤ last_second) }
    ensures { TrialOf (component_in (whole_of c (tree_in cal.now.text.now)) (component_scope (component_by cal.now.text.now cal.now.rows.now k)) (component_by cal.now.text.now cal.now.rows.now k) a b) (gone_from c cal.now.text.now cal.now.rows.now k) result }
{
    let kind = cal.kind_at(k);
    if kind == 1 {
        return Trial::Instances(events::rows::event_at(column, k), a, b);
    }
    if kind == 2 {
        let x = events::rows::block_at(column, k);
        return Trial::Once(ranges::bounds_in(x, cal, k, c, a, b));
    }
    Trial::Once(false)
}

// The same against a record's range, 0 for none.
// Not one with `ruled_out`: an Option of both seconds would be made in as many lines as they share, and each would take it apart.
pub fn trial_of(q: &Query, r: usize, cal: &Calendar, column: &[u64], k: usize, c: Context) -> Trial
    requires q_value { records_good q.now.bytes.now q.now.sections ≡ true }
    requires r_le_count { r ≤ q.now.sections.ranges.count }
    requires context_good { ContextGood c }
    requires given { Given c cal.now.text.now cal.now.index.now cal.now.rows.now column.now }
    requires here { Here cal.now.text.now cal.now.rows.now k }
    ensures { TrialOf (range_holds (whole_of c (tree_in cal.now.text.now)) q.now.bytes.now q.now.sections r (component_by cal.now.text.now cal.now.rows.now k)) (gone_from c cal.now.text.now cal.now.rows.now k) result }
{
    if r == 0 {
        return Trial::Once(true);
    }
    let i = r - 1;
    let a = q.range_start(i);
    let b = q.range_end(i);
    trial_in(cal, column, k, c, a, b)
}

// The first instance to try: none before it passes.
pub fn first_tried(t: Trial) -> u64
    requires { SmallTrial t }
    ensures { (gone : List ℕ) → Tried gone t result }
{
    match t {
        Trial::Instances(e, a, _) => time_range::first_candidate(e, a),
        Trial::Once(_) => 0,
    }
}

// Is there an instance k to try? Where not, none from k on passes.
pub fn goes_on(t: Trial, k: u64) -> bool
    requires small_trial { SmallTrial t }
    requires k_bound { k ≤ 100000 }
    ensures { MoreTrials t k result }
{
    match t {
        Trial::Instances(e, _, b) => time_range::starts_before(e, b, k),
        Trial::Once(_) => k == 0,
    }
}

// Does instance k pass, where these starts are taken away? What is tried once has number 0.
pub fn passes(t: Trial, gone: &[u32], k: u64) -> bool
    requires small_trial { SmallTrial t }
    requires ordered { Ordered gone.now }
    requires k_bound { k ≤ 100000 }
    ensures { result ≡ trial_passes gone.now t k }
{
    match t {
        Trial::Instances(e, a, b) => time_range::instance_in(e, gone, a, b, k),
        Trial::Once(good) => good & (k == 0),
    }
}
