// Events and free-busy blocks as rows of numbers in lent memory: twelve numbers a row, row k from place 12 * k on.
// What is put to a row is read from it again, and the other rows are left as they were.
// Tags and plain numbers, and no slice of structs: the memory that is lent for them is one slice of u64 for all (no heap), of which callers lend parts.
ghost use Rattle.std.specs.Prelude.{◌≡◌, ◌+◌, ◌*◌, ◌≤◌, length};
ghost use Rattle.events.specs.EntryRows.{ending_numbers, repeat_numbers, bound_numbers, kind_of, ending_of, repeat_of, busy_of, bound_of};
ghost use Rattle.events.specs.EntryRows.{event_row, block_row, event_at, block_at, EntryPut};

use crate::{Block, Ending, Event, Repeat};
use periods::BusyType;
use time::date_time::Kind;
use time::duration::Duration;

// Which ending it is, its second or its days, its seconds, and 1 where its duration names a time.
#[derive(Clone, Copy)]
pub struct EndingNumbers {
    pub tag: u64,
    pub number: u64,
    pub seconds: u64,
    pub timed: u64,
}

// Which variant it is, and the number that it holds.
#[derive(Clone, Copy)]
pub struct TaggedNumber {
    pub tag: u64,
    pub number: u64,
}

impl From<Ending> for EndingNumbers {
    ghost from_gives = { λ ending numbers. numbers ≡ ending_numbers ending };

    fn from(ending: Ending) -> EndingNumbers {
        match ending {
            Ending::End(t) => EndingNumbers {
                tag: 0,
                number: t,
                seconds: 0,
                timed: 0,
            },
            Ending::Lasts(d) => EndingNumbers {
                tag: 1,
                number: d.days,
                seconds: d.seconds,
                timed: d.timed as u64,
            },
            Ending::None => EndingNumbers {
                tag: 2,
                number: 0,
                seconds: 0,
                timed: 0,
            },
        }
    }
}

impl From<EndingNumbers> for Ending {
    ghost from_gives = { λ numbers ending. ending ≡ ending_of numbers.tag numbers.number numbers.seconds numbers.timed };

    fn from(numbers: EndingNumbers) -> Ending {
        match numbers.tag {
            0 => Ending::End(numbers.number),
            1 => Ending::Lasts(Duration {
                days: numbers.number,
                seconds: numbers.seconds,
                timed: numbers.timed == 1,
            }),
            _ => Ending::None,
        }
    }
}

impl From<Repeat> for TaggedNumber {
    ghost from_gives = { λ repeat numbers. numbers ≡ repeat_numbers repeat };

    fn from(repeat: Repeat) -> TaggedNumber {
        match repeat {
            Repeat::Once => TaggedNumber { tag: 0, number: 0 },
            Repeat::Forever => TaggedNumber { tag: 1, number: 0 },
            Repeat::Count(n) => TaggedNumber { tag: 2, number: n },
            Repeat::Until(t) => TaggedNumber { tag: 3, number: t },
        }
    }
}

impl From<TaggedNumber> for Repeat {
    ghost from_gives = { λ numbers repeat. repeat ≡ repeat_of numbers.tag numbers.number };

    fn from(numbers: TaggedNumber) -> Repeat {
        match numbers.tag {
            0 => Repeat::Once,
            1 => Repeat::Forever,
            2 => Repeat::Count(numbers.number),
            _ => Repeat::Until(numbers.number),
        }
    }
}

impl From<Option<u64>> for TaggedNumber {
    ghost from_gives = { λ bound numbers. numbers ≡ bound_numbers bound };

    fn from(bound: Option<u64>) -> TaggedNumber {
        match bound {
            Some(t) => TaggedNumber { tag: 0, number: t },
            None => TaggedNumber { tag: 1, number: 0 },
        }
    }
}

// Kind, BusyType and Option are of other crates, so what a number says of them is no TryFrom or From of this one.
fn kind_of(tag: u64) -> Kind
    ensures { result ≡ kind_of tag }
{
    match tag {
        0 => Kind::Utc,
        1 => Kind::Floating,
        _ => Kind::Date,
    }
}

// The busy type by its place in a report.
fn busy_of(place: u64) -> BusyType
    ensures { result ≡ busy_of place }
{
    match place {
        0 => BusyType::Busy,
        1 => BusyType::Tentative,
        2 => BusyType::Unavailable,
        _ => BusyType::Free,
    }
}

fn bound_of(tag: u64, number: u64) -> Option<u64>
    ensures { result ≡ bound_of tag number }
{
    (tag == 0).then_some(number)
}

// Row k becomes these numbers.
// No generic one with those of `structure` and `identities`: each is one `copy_from_slice` with a definition of its own (docs/CONTRACTS.md).
fn put_row(column: &mut [u64], k: usize, row: [u64; 12])
    requires { 12 * k + 12 ≤ length column.old }
    ensures { EntryPut column.old k row column.new }
{
    let first = 12 * k;
    column[first..first + 12].copy_from_slice(&row);
}

// Row k becomes that of the event.
pub fn put_event(column: &mut [u64], k: usize, e: Event)
    requires { 12 * k + 12 ≤ length column.old }
    ensures { EntryPut column.old k (event_row e) column.new }
{
    let ends = EndingNumbers::from(e.ending);
    let repeats = TaggedNumber::from(e.repeat);
    put_row(
        column,
        k,
        [
            e.kind as u64,
            e.start,
            ends.tag,
            ends.number,
            ends.seconds,
            ends.timed,
            e.days,
            e.interval,
            repeats.tag,
            repeats.number,
            periods::report_place(e.busy) as u64,
            0,
        ],
    );
}

// Row k becomes that of the block.
pub fn put_block(column: &mut [u64], k: usize, b: Block)
    requires { 12 * k + 12 ≤ length column.old }
    ensures { EntryPut column.old k (block_row b) column.new }
{
    let from = TaggedNumber::from(b.start);
    let to = TaggedNumber::from(b.end);
    put_row(
        column,
        k,
        [
            from.tag,
            from.number,
            to.tag,
            to.number,
            0,
            0,
            0,
            0,
            0,
            0,
            0,
            0,
        ],
    );
}

// The event of row k.
pub fn event_at(column: &[u64], k: usize) -> Event
    requires { 12 * k + 12 ≤ length column.now }
    ensures { result ≡ event_at column.now k }
{
    let at = 12 * k;
    let ending = EndingNumbers {
        tag: column[at + 2],
        number: column[at + 3],
        seconds: column[at + 4],
        timed: column[at + 5],
    };
    let repeat = TaggedNumber {
        tag: column[at + 8],
        number: column[at + 9],
    };
    Event {
        kind: kind_of(column[at]),
        start: column[at + 1],
        ending: Ending::from(ending),
        days: column[at + 6],
        interval: column[at + 7],
        repeat: Repeat::from(repeat),
        busy: busy_of(column[at + 10]),
    }
}

// The block of row k.
pub fn block_at(column: &[u64], k: usize) -> Block
    requires { 12 * k + 12 ≤ length column.now }
    ensures { result ≡ block_at column.now k }
{
    let at = 12 * k;
    Block {
        start: bound_of(column[at], column[at + 1]),
        end: bound_of(column[at + 2], column[at + 3]),
    }
}
