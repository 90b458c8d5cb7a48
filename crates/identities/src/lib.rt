// What ties an event to others, gathered line by line: its UID, its RECURRENCE-ID, and the times of its EXDATE lines.
// Of UID and RECURRENCE-ID one is kept, and whether there are several; the times of EXDATE stand in a column.
#![tactic(auto)]

pub mod rows;

ghost use Rattle.std.specs.Prelude.{◌≡◌};
ghost use Rattle.identities.specs.Gathering.{no_identity, with_uid, with_recurrence, with_exceptions};

use time::date_time::Kind;
use values::given::Given;
use values::time_lists::Kinds;
use values::times::Time;

// What is kept of a RECURRENCE-ID: its kind, and the second that it names.
#[derive(Clone, Copy)]
pub struct RecurrenceId {
    pub kind: Kind,
    pub second: u64,
}

#[derive(Clone, Copy)]
pub struct IdentityRead {
    // The number of its line.
    pub uid: Given<usize>,
    pub recurrence: Given<RecurrenceId>,
    // Which kinds the times of its EXDATE lines have.
    pub kinds: Kinds,
    // How many times stand in the column, those of events before it among them.
    pub held: usize,
}

// Nothing is read yet, and so many times stand in the column.
#[tactic(auto, unfolding(crate::specs::Gathering::no_identity))]
pub fn no_identity(held: usize) -> IdentityRead
    ensures { result ≡ no_identity held }
{
    IdentityRead {
        uid: Given::None,
        recurrence: Given::None,
        kinds: Kinds::None,
        held,
    }
}

// A UID more, on the line of this number.
#[tactic(auto, unfolding(crate::specs::Gathering::with_uid))]
pub fn with_uid(y: IdentityRead, line: usize) -> IdentityRead
    ensures { result ≡ with_uid y line }
{
    IdentityRead {
        uid: y.uid.with(line),
        ..y
    }
}

// A RECURRENCE-ID more.
#[tactic(auto, unfolding(crate::specs::Gathering::with_recurrence))]
pub fn with_recurrence(y: IdentityRead, t: Time) -> IdentityRead
    ensures { result ≡ with_recurrence y t }
{
    let id = RecurrenceId {
        kind: t.kind,
        second: t.second,
    };
    IdentityRead {
        recurrence: y.recurrence.with(id),
        ..y
    }
}

// The times of an EXDATE line more: so many stand in the column now, and these are the kinds of all.
#[tactic(auto, unfolding(crate::specs::Gathering::with_exceptions))]
pub fn with_exceptions(y: IdentityRead, kinds: Kinds, held: usize) -> IdentityRead
    ensures { result ≡ with_exceptions y kinds held }
{
    IdentityRead { kinds, held, ..y }
}
