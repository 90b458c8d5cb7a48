// Storing the busy pieces of one period and of one event, from a up to, but not including, b; 513 pieces are enough.
// A piece is three numbers of a column: its start, its end, and the place of its type in a report.
// The range is two numbers: `store_period`, which docs/TRACE.md names, does not ask a < b, so a type of both would ask more of its callers.
// The column is lent with its count (no heap), so the bound of the count stays in the contracts.
ghost use Rattle.std.specs.Prelude.{◌≡◌, false, List, [], ◌∷◌, ℕ, ◌*◌, ◌≤◌, ◌<◌, min, max, length};
ghost use Rattle.std.proofs.lemmas.List.Edits.{sets};
ghost use Rattle.time.specs.Limits.{last_second};
ghost use Rattle.periods.specs.BusyTypes.{report_place};
ghost use Rattle.seconds.specs.Seconds.{Ordered};
ghost use Rattle.events.specs.Sizes.{EventSmall};
ghost use Rattle.pieces.specs.BusyPeriods.{instance_period, event_periods, busy_period};
ghost use Rattle.pieces.specs.Pieces.{piece_of, pieces_of};
ghost use Rattle.pieces.specs.Columns.{Stored, Room};

use events::{Event, rules};
use periods::BusyType;
use recurrence::{instance, time_range};

// Three numbers behind n pieces. No slice of structs: `Stored` and `Room` say what the column's numbers are (docs/CONTRACTS.md).
fn put_piece(column: &mut [u32], n: usize, from: u64, to: u64, busy: BusyType)
    requires room { Room column.old }
    requires n_bound { n < 513 }
    requires from_le_last_second { from ≤ last_second }
    requires to_le_last_second { to ≤ last_second }
    ensures { column.new ≡ sets column.old (3 * n) (from ∷ to ∷ report_place busy ∷ []) }
{
    let at = 3 * n;
    column[at] = from as u32;
    column[at + 1] = to as u32;
    column[at + 2] = periods::report_place(busy) as u32;
}

// The piece of a period, where it is busy time and has a second in the range.
pub fn store_period(
    column: &mut [u32],
    n: usize,
    busy: BusyType,
    start: u64,
    end: u64,
    a: u64,
    b: u64,
) -> usize
    requires room { Room column.old }
    requires n_bound { n ≤ 513 }
    requires b_le_last_second { b ≤ last_second }
    ensures { Stored column.old n (piece_of a b (busy_period busy start end)) column.new result }
{
    let from = a.max(start);
    let to = b.min(end);
    if (n < 513) & busy.is_busy() & (from < to) {
        put_piece(column, n, from, to, busy);
        n + 1
    } else {
        n
    }
}

// The piece of instance k, where it stands.
fn store_instance(
    column: &mut [u32],
    n: usize,
    e: Event,
    gone: &[u32],
    k: u64,
    a: u64,
    b: u64,
) -> usize
    requires room { Room column.old }
    requires n_bound { n ≤ 513 }
    requires event_small { EventSmall e }
    requires ordered { Ordered gone.now }
    requires k_bound { k ≤ 100000 }
    requires b_le_last_second { b ≤ last_second }
    ensures { Stored column.old n (pieces_of a b (instance_period e gone.now k)) column.new result }
{
    if instance::occurs(e, gone, k) {
        let busy = e.busy;
        store_period(
            column,
            n,
            busy,
            instance::start_of(e, k),
            instance::end_of(e, k),
            a,
            b,
        )
    } else {
        n
    }
}

// The pieces of an event, one instance after the other: those before the first candidate, and those after the last start, have none.
fn store_instances(
    column: &mut [u32],
    first: usize,
    e: Event,
    gone: &[u32],
    a: u64,
    b: u64,
) -> usize
    requires room { Room column.old }
    requires first_bound { first ≤ 513 }
    requires event_small { EventSmall e }
    requires ordered { Ordered gone.now }
    requires a_lt_b { a < b }
    requires b_le_last_second { b ≤ last_second }
    ensures { Stored column.old first (pieces_of a b (event_periods e gone.now)) column.new result }
{
    // A `while`: it ends where no room is left or by what the event says of start k.
    let mut n = first;
    let mut k = time_range::first_candidate(e, a);
    while (n < 513) & time_range::starts_before(e, b, k) {
        n = store_instance(column, n, e, gone, k, a, b);
        k += 1;
    }
    n
}

// Can the event have a piece in any range? Not where it is free, and not where it is of zero length.
fn may_have_pieces(e: Event) -> bool
    requires { EventSmall e }
    ensures { result ≡ false → (gone : List ℕ) (a b : ℕ) → pieces_of a b (event_periods e gone) ≡ [] }
{
    e.busy.is_busy() & !instance::is_zero_length(e)
}

// The pieces of an event, where these starts are taken away. Where it can have none, none of its instances is looked at.
pub fn store_event(
    column: &mut [u32],
    first: usize,
    e: Event,
    gone: &[u32],
    a: u64,
    b: u64,
) -> usize
    requires room { Room column.old }
    requires first_bound { first ≤ 513 }
    requires event_small { EventSmall e }
    requires ordered { Ordered gone.now }
    requires a_lt_b { a < b }
    requires b_le_last_second { b ≤ last_second }
    ensures { Stored column.old first (pieces_of a b (event_periods e gone.now)) column.new result }
{
    if may_have_pieces(e) {
        return store_instances(column, first, e, gone, a, b);
    }
    first
}
