// What ties an event to others, as a row of eight numbers in lent memory: row k from place 8 * k on.
// What is put to a row is read from it again, and the other rows are left as they were.
ghost use Rattle.std.specs.Prelude.{◌≡◌, ◌+◌, ◌*◌, ◌≤◌, length};
ghost use Rattle.identities.specs.LinkRows.{UidSmall, RecurrenceSmall, LinkSmall};
ghost use Rattle.identities.specs.LinkRows.{kind_tag, kinds_tag, uid_numbers, recurrence_numbers, kind_of, kinds_of, uid_of, recurrence_of};
ghost use Rattle.identities.specs.LinkRows.{link_row, link_at, LinkPut};

use crate::RecurrenceId;
use time::date_time::Kind;
use values::given::Given;
use values::time_lists::Kinds;

#[derive(Clone, Copy)]
pub struct Link {
    pub uid: Given<usize>,
    pub recurrence: Given<RecurrenceId>,
    // Which kinds the times of its EXDATE lines have.
    pub kinds: Kinds,
    // Where the seconds of its EXDATE lines stand in the column.
    pub from: usize,
    pub to: usize,
    // Does it break a rule by itself? The row says it beside the rest (link_row), so it is no Result.
    pub broken: bool,
}

// Tags of rows, and a variant that holds a number beside its tag: a row is numbers in lent memory (fixed memory, no heap), and says what LinkRows gives,
// so that no derive or TryFrom of the types alone would do. 0 is a row's tag for none, so that kinds have other tags here than in the rows of events.
#[tactic(auto, unfolding(crate::specs::LinkRows::kind_tag))]
fn kind_tag(kind: Kind) -> u32
    ensures { result ≡ kind_tag kind }
{
    match kind {
        Kind::Utc => 1,
        Kind::Floating => 2,
        Kind::Date => 3,
    }
}

#[tactic(auto, unfolding(crate::specs::LinkRows::kinds_tag))]
fn kinds_tag(kinds: Kinds) -> u32
    ensures { result ≡ kinds_tag kinds }
{
    match kinds {
        Kinds::None => 0,
        Kinds::One(kind) => kind_tag(kind),
        Kinds::Several => 4,
    }
}

#[tactic(auto, unfolding(crate::specs::LinkRows::uid_numbers))]
fn uid_numbers(uid: Given<usize>) -> (u32, u32)
    requires { UidSmall uid }
    ensures { result ≡ uid_numbers uid }
{
    match uid {
        Given::None => (0, 0),
        Given::One(line) => (1, line as u32),
        Given::Several => (2, 0),
    }
}

#[tactic(auto, unfolding(crate::specs::LinkRows::recurrence_numbers))]
fn recurrence_numbers(recurrence: Given<RecurrenceId>) -> (u32, u32)
    requires { RecurrenceSmall recurrence }
    ensures { result ≡ recurrence_numbers recurrence }
{
    match recurrence {
        Given::None => (0, 0),
        Given::One(t) => (kind_tag(t.kind), t.second as u32),
        Given::Several => (4, 0),
    }
}

#[tactic(auto, unfolding(crate::specs::LinkRows::kind_of))]
fn kind_of(tag: u32) -> Kind
    ensures { result ≡ kind_of tag }
{
    match tag {
        1 => Kind::Utc,
        2 => Kind::Floating,
        _ => Kind::Date,
    }
}

#[tactic(auto, unfolding(crate::specs::LinkRows::kinds_of))]
fn kinds_of(tag: u32) -> Kinds
    ensures { result ≡ kinds_of tag }
{
    match tag {
        0 => Kinds::None,
        4 => Kinds::Several,
        _ => Kinds::One(kind_of(tag)),
    }
}

#[tactic(auto, unfolding(crate::specs::LinkRows::uid_of))]
fn uid_of(tag: u32, number: u32) -> Given<usize>
    ensures { result ≡ uid_of tag number }
{
    match tag {
        0 => Given::None,
        1 => Given::One(number as usize),
        _ => Given::Several,
    }
}

#[tactic(auto, unfolding(crate::specs::LinkRows::recurrence_of))]
fn recurrence_of(tag: u32, number: u32) -> Given<RecurrenceId>
    ensures { result ≡ recurrence_of tag number }
{
    match tag {
        0 => Given::None,
        4 => Given::Several,
        _ => Given::One(RecurrenceId {
            kind: kind_of(tag),
            second: number as u64,
        }),
    }
}

// Row k becomes these numbers.
// No generic one with those of `structure` and `events`: each is one `copy_from_slice` with a definition of its own (docs/CONTRACTS.md).
fn put_row(links: &mut [u32], k: usize, row: [u32; 8])
    requires { 8 * k + 8 ≤ length links.old }
    ensures { LinkPut links.old k row links.new }
{
    let first = 8 * k;
    links[first..first + 8].copy_from_slice(&row);
}

// Row k becomes that of the link.
pub fn put_link(links: &mut [u32], k: usize, l: Link)
    requires k_in_bounds { 8 * k + 8 ≤ length links.old }
    requires link_small { LinkSmall l }
    ensures { LinkPut links.old k (link_row l) links.new }
{
    let (uid, line) = uid_numbers(l.uid);
    let (recurrence, second) = recurrence_numbers(l.recurrence);
    let kinds = kinds_tag(l.kinds);
    put_row(
        links,
        k,
        [
            uid,
            line,
            recurrence,
            second,
            kinds,
            l.from as u32,
            l.to as u32,
            l.broken as u32,
        ],
    );
}

// The link of row k.
#[tactic(auto, unfolding(crate::specs::LinkRows::link_at))]
pub fn link_at(links: &[u32], k: usize) -> Link
    requires { 8 * k + 8 ≤ length links.now }
    ensures { result ≡ link_at links.now k }
{
    let at = 8 * k;
    Link {
        uid: uid_of(links[at], links[at + 1]),
        recurrence: recurrence_of(links[at + 2], links[at + 3]),
        kinds: kinds_of(links[at + 4]),
        from: links[at + 5] as usize,
        to: links[at + 6] as usize,
        broken: links[at + 7] == 1,
    }
}
