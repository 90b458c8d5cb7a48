// The fixed byte strings of a report: written by lines, compared here with the bytes at a place.
// Each string stands once, for the writer and for the reader.
ghost use Rattle.std.specs.Prelude.{◌≡◌};
ghost use Rattle.report.specs.Bytes.{period_head};
ghost use Rattle.report.specs.Heads.{has_bytes_at, opens_report, closes_report, is_busy_line, all_busy_lines, heads_match};

use periods::BusyType;

// What stands before the stamp, before the start of the range and before its end.
pub const STAMP_HEAD: [u8; 92] =
    *b"BEGIN:VCALENDAR\r\nVERSION:2.0\r\nPRODID:-//Cover Desk//Free Busy//EN\r\nBEGIN:VFREEBUSY\r\nDTSTAMP:";

pub const START_HEAD: [u8; 10] = *b"\r\nDTSTART:";

pub const END_HEAD: [u8; 8] = *b"\r\nDTEND:";

// How the line of a period begins, by its busy type.
pub const BUSY_HEAD: [u8; 21] = *b"FREEBUSY;FBTYPE=BUSY:";

pub const TENTATIVE_HEAD: [u8; 31] = *b"FREEBUSY;FBTYPE=BUSY-TENTATIVE:";

pub const UNAVAILABLE_HEAD: [u8; 33] = *b"FREEBUSY;FBTYPE=BUSY-UNAVAILABLE:";

// No report has this one.
pub const FREE_HEAD: [u8; 21] = *b"FREEBUSY;FBTYPE=FREE:";

// The last two lines.
pub const CLOSING: [u8; 30] = *b"END:VFREEBUSY\r\nEND:VCALENDAR\r\n";

// Does the fixed string stand at this place? No where it does not fit.
pub fn has_bytes_at(s: &[u8], at: usize, head: &[u8]) -> bool
    ensures { result ≡ has_bytes_at s.now head.now at }
{
    if s.len() < at {
        return head.is_empty();
    }
    s[at..].starts_with(head)
}

// Does the line of a period of this type begin at this place?
fn period_at(s: &[u8], at: usize, kind: BusyType) -> bool
    ensures { result ≡ has_bytes_at s.now (period_head kind) at }
{
    match kind {
        BusyType::Busy => has_bytes_at(s, at, &BUSY_HEAD),
        BusyType::Tentative => has_bytes_at(s, at, &TENTATIVE_HEAD),
        BusyType::Unavailable => has_bytes_at(s, at, &UNAVAILABLE_HEAD),
        BusyType::Free => has_bytes_at(s, at, &FREE_HEAD),
    }
}

// Do the bytes begin as a report does, up to the end of its range?
fn opens_report(s: &[u8]) -> bool
    ensures { result ≡ opens_report s.now }
{
    has_bytes_at(s, 0, &STAMP_HEAD)
        & has_bytes_at(s, 108, &START_HEAD)
        & has_bytes_at(s, 134, &END_HEAD)
}

// Are the last bytes those that end a report?
fn closes_report(s: &[u8]) -> bool
    ensures { result ≡ closes_report s.now }
{
    if s.len() < 30 {
        return false;
    }
    has_bytes_at(s, s.len() - 30, &CLOSING)
}

// Is it a line of busy time, by its head?
fn is_busy_line(line: &[u8]) -> bool
    ensures { result ≡ is_busy_line line.now }
{
    period_at(line, 0, BusyType::Busy)
        | period_at(line, 0, BusyType::Tentative)
        | period_at(line, 0, BusyType::Unavailable)
}

// Is every line one of busy time?
fn all_busy_lines(s: &[u8]) -> bool
    ensures { result ≡ all_busy_lines s.now }
{
    let mut at = 0;
    while let Some((e, next)) = text::next_line(s, at) {
        if !is_busy_line(&s[at..e]) {
            return false;
        }
        at = next;
    }
    true
}

// Does every line begin as a report's does? Those of the periods stand between the opening and the closing.
pub fn heads_match(s: &[u8]) -> bool
    ensures { result ≡ heads_match s.now }
{
    if s.len() < 190 {
        return false;
    }
    let end = s.len() - 30;
    opens_report(s) & closes_report(s) & all_busy_lines(&s[160..end])
}
