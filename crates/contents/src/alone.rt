// Does an event break a rule of R-3 by itself, by what ties it to others?
// The rules of its own properties were asked before: here it is an event.
ghost use Rattle.std.specs.Prelude.{◌≡◌};
ghost use Rattle.contents.specs.Alone.{several_uids, no_uid, other_kinds, some_kinds, override_by, alone_by};

use events::Event;
use identities::{IdentityRead, RecurrenceId};
use time::date_time::Kind;
use values::given::Given;
use values::time_lists::Kinds;

fn several_uids(uid: Given<usize>) -> bool
    ensures { result ≡ several_uids uid }
{
    match uid {
        Given::None => false,
        Given::One(_) => false,
        Given::Several => true,
    }
}

fn no_uid(uid: Given<usize>) -> bool
    ensures { result ≡ no_uid uid }
{
    match uid {
        Given::None => true,
        Given::One(_) => false,
        Given::Several => false,
    }
}

// Is an exception of another kind than this?
fn other_kinds(kinds: Kinds, kind: Kind) -> bool
    ensures { result ≡ other_kinds kinds kind }
{
    match kinds {
        Kinds::None => false,
        Kinds::One(k) => !overrides::same_kind(k, kind),
        Kinds::Several => true,
    }
}

fn some_kinds(kinds: Kinds) -> bool
    ensures { result ≡ some_kinds kinds }
{
    match kinds {
        Kinds::None => false,
        Kinds::One(_) => true,
        Kinds::Several => true,
    }
}

// With a RECURRENCE-ID: one alone, a UID, no EXDATE, no RRULE.
fn override_by(recurrence: Given<RecurrenceId>, uid: Given<usize>, kinds: Kinds, rule: bool) -> bool
    ensures { result ≡ override_by recurrence uid kinds rule }
{
    match recurrence {
        Given::None => false,
        Given::One(_) => no_uid(uid) | some_kinds(kinds) | rule,
        Given::Several => true,
    }
}

pub fn breaks_alone(y: IdentityRead, e: Event) -> bool
    ensures { result ≡ alone_by y e }
{
    let uid = y.uid;
    let recurrence = y.recurrence;
    let kinds = y.kinds;
    let kind = e.kind;
    let repeat = e.repeat;
    let rule = overrides::has_rule(repeat);
    several_uids(uid) | other_kinds(kinds, kind) | override_by(recurrence, uid, kinds, rule)
}
