// The value of EXDATE: a comma list of times, stored as they are read.
// With the seconds goes which kinds they have, since an exception is of its event's kind.
ghost use Rattle.std.specs.Prelude.{◌≡◌, ◌+◌, ◌*◌, ◌≤◌, length};
ghost use Rattle.values.specs.Times.{ContextGood};
ghost use Rattle.values.specs.TimeLists.{with_kind, TimesAre};

use crate::times;
use crate::times::{Context, Form};
use time::date_time::Kind;

// The kinds of a list of times: none where it is empty.
// It is no Given<Kind>: several times of one kind are one kind (decision 125), where Given would say Several.
#[derive(Clone, Copy)]
pub enum Kinds {
    None,
    One(Kind),
    Several,
}

// The kinds with one more time.
fn with_kind(kinds: Kinds, k: Kind) -> Kinds
    ensures { result ≡ with_kind kinds k }
{
    match kinds {
        Kinds::None => Kinds::One(k),
        Kinds::One(j) => {
            if j == k {
                Kinds::One(j)
            } else {
                Kinds::Several
            }
        }
        Kinds::Several => Kinds::Several,
    }
}

// Every time of the value v, its second stored behind `first` others; `kinds` are those of the values before it.
// The column is lent with its count: there is no heap, and docs/TRACE.md names this function.
pub fn store_times(
    column: &mut [u32],
    first: usize,
    kinds: Kinds,
    c: Context,
    form: Form,
    v: &[u8],
) -> Option<(usize, Kinds)>
    requires context_good { ContextGood c }
    requires v_bound { 8 * first + length v.now ≤ 8 * length column.old }
    ensures { TimesAre c form v.now kinds column.old first column.new result }
{
    let mut n = first;
    let mut found = kinds;
    for item in v.split(|&b| b == 44) {
        let Some(t) = times::read_time(c, form, item) else {
            return None;
        };
        column[n] = t.second as u32;
        found = with_kind(found, t.kind);
        n += 1;
    }
    Some((n, found))
}
