// Printing.
// Standard output alone; its first word is the status.
use crate::file::Reason;
use crate::stop::Stop;
use std::fmt::Display;
use std::io;

const USAGE: &str = "usage: loku report CALENDAR START END OFFSET STAMP
       loku verify CALENDAR START END OFFSET STAMP [OFFSET-AGAIN]
       loku match CALENDAR QUERY OFFSET
       loku batch START END OFFSET STAMP [QUERY], with a file name a line on standard input
A time is seconds since 1970, or UTC as 20240311T080000Z. An offset is seconds as -18000, or as +02:00.
A query file is binary, or hex where its name ends in .hex.
example: loku report team.ics 20240311T080000Z 20240311T180000Z +00:00 1710050400
";

// One sentence on what is wrong with the call, and how to call.
pub fn wrong<T>(rt: &impl Print, what: &[u8]) -> Result<T, Stop> {
    print!(rt; "wrong: ")?;
    rt.write_all(what)?;
    print!(rt; ".\n{USAGE}")?;
    Err(Stop::Said)
}

// The word that is wrong, and how to call.
fn end_wrong<T>(rt: &impl Print, word: &[u8]) -> Result<T, Stop> {
    print!(rt; ", and this is none: ")?;
    rt.write_all(word)?;
    print!(rt; "\n{USAGE}")?;
    Err(Stop::Said)
}

// The same as wrong, with the word that is wrong.
pub fn wrong_word<T>(rt: &impl Print, what: &[u8], word: &[u8]) -> Result<T, Stop> {
    print!(rt; "wrong: ")?;
    rt.write_all(what)?;
    end_wrong(rt, word)
}

// The same, where an error says what is wrong.
pub fn wrong_by<T>(rt: &impl Print, what: impl Display + Drop, word: &[u8]) -> Result<T, Stop> {
    print!(rt; "wrong: {what}")?;
    end_wrong(rt, word)
}

// A file that cannot be read; the system's own words are on standard error.
pub fn unreadable(
    rt: &impl Print,
    name: &[u8],
    reason: impl Into<Reason> + Drop,
) -> io::Result<()> {
    let reason: Reason = reason.into();
    print!(rt; "unreadable: ")?;
    rt.write_all(name)?;
    println!(rt; ": {reason}")
}

// A refusal's number and meaning, and the line at fault where it has one.
// Both are numbers, as `engine::Answer` has them, which docs/TRACE.md names.
pub fn refused(rt: &impl Print, n: u8, line: usize) -> io::Result<()> {
    print!(rt; "refused {n}: {}", cli::words::meaning(n))?;
    if 0 < line {
        print!(rt; ", line {line}")?;
    }
    println!(rt)
}
