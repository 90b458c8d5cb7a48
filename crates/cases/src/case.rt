// A case that has been read whole: match or report, calendar in hex, query in hex or -, start, end, offset, stamp, work length, output length, a tab
// between two; an empty byte string is a dot. Of the first field the first letter decides.
ghost use Rattle.std.specs.Prelude.{◌≡◌};

use std::error::Error;
use std::fmt;

// The most bytes of a calendar and of a query.
pub const CALENDAR: usize = 131072;

pub const QUERY: usize = 16384;

// The public call that a case asks for.
#[derive(Clone, Copy, Debug, PartialEq, Eq)]
pub enum Call {
    Match,
    Report,
}

// The numbers of a case.
#[derive(Clone, Copy, Debug, PartialEq, Eq)]
pub struct Numbers {
    // The line's number, from 1.
    pub line: u64,
    pub start: u64,
    pub end: u64,
    // None where 64 bits do not hold it: only some of the calls ask for it.
    pub offset: Option<i64>,
    pub stamp: u64,
    // The lengths of the two buffers.
    pub work: usize,
    pub out: usize,
}

impl Numbers {
    // Those of a line of which nothing has been read.
    pub(crate) fn new(line: u64) -> Numbers {
        Numbers {
            line,
            start: 0,
            end: 0,
            offset: None,
            stamp: 0,
            work: 0,
            out: 0,
        }
    }

    // The refusal of this case's line.
    pub fn unreadable(&self) -> Unreadable
        ensures { result.line ≡ self.now.line }
    {
        Unreadable { line: self.line }
    }
}

#[derive(Clone, Copy)]
pub struct Case<'a> {
    pub call: Call,
    pub cal: &'a [u8],
    pub query: &'a [u8],
    pub numbers: Numbers,
}

// A line that is no case, or one that cannot be run.
#[derive(Clone, Copy, Debug, PartialEq, Eq)]
pub struct Unreadable {
    pub line: u64,
}

impl fmt::Display for Unreadable {
    fn fmt<W: fmt::Write>(&self, f: &mut fmt::Formatter<W>) -> fmt::Result {
        let line = self.line;
        write!(f, "line {line} cannot be read")
    }
}

impl Error for Unreadable {}
