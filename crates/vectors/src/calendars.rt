// Worked calendars: the refusal that their bytes earn, with its line.
// What they print is compared with stored output.
// The bounds of a text are those of `structure::read_structure` and `contents::walks::read_components`, which docs/TRACE.md names.
ghost use Rattle.std.specs.Prelude.{◌≤◌, length};
ghost use Rattle.values.specs.Times.{ContextGood};
ghost use Rattle.structure.specs.Rows.{FileRows};

use crate::lines::decode;
use arrayvec::ArrayVec;
use calendar::Refusal;
use contents::walks;
use std::io;
use structure::calendar::Calendar;
use values::times::Context;

// A number in decimal, up to 100,800; any other byte counts as 0.
fn shift(s: &[u8]) -> u64
    ensures { result ≤ 100800 }
{
    let mut n: u64 = 0;
    for &b in s {
        n = with_digit(n, b);
    }
    n
}

fn with_digit(n: u64, b: u8) -> u64
    requires { n ≤ 100800 }
    ensures { result ≤ 100800 }
{
    let d = match b {
        b'0'..=b'9' => b - b'0',
        _ => 0,
    };
    (n * 10 + u64::from(d)).min(100800)
}

fn show_fault(rt: &impl Print, r: Result<(), Refusal>) -> io::Result<()> {
    match r {
        Ok(()) => rt.write_all(b"good"),
        Err(e) => {
            rt.write_all(b"refused ")?;
            rt.print(e.number)?;
            rt.write_all(b" at line ")?;
            rt.print(e.line)
        }
    }
}

// Refusals 8 to 10 of a calendar that index and rows know. The pieces are not asked for.
fn contents_fault(cal: &Calendar, c: Context) -> Result<(), Refusal>
    requires s_len_bound { length cal.now.text.now ≤ 65536 }
    requires file_rows { FileRows cal.now.text.now cal.now.index.now cal.now.rows.now }
    requires context_good { ContextGood c }
{
    let mut column = [0u32; 1539];
    let mut entries = [0u64; 3072];
    let mut exceptions = [0u32; 8193];
    let mut links = [0u32; 2048];
    walks::read_components(
        &mut column,
        &mut entries,
        &mut exceptions,
        &mut links,
        cal,
        c,
        0,
        1,
    )?;
    Ok(())
}

// Refusals 6 to 10 of an unfolded calendar.
fn fault_of(s: &[u8], c: Context) -> Result<(), Refusal>
    requires s_len_bound { length s.now ≤ 65536 }
    requires context_good { ContextGood c }
{
    let mut index = [0u32; 16385];
    let mut rows = [0u32; 1024];
    structure::read_structure(&mut index, &mut rows, s)?;
    let cal = Calendar {
        text: s,
        index: &index,
        rows: &rows,
    };
    contents_fault(&cal, c)
}

// The offset as 50,400 more than it, a blank, and the calendar in hex.
pub fn check_hex(rt: &impl Print, s: &[u8]) -> io::Result<()> {
    let mut cal = ArrayVec::<u8, 65536>::new();
    decode(&mut cal, line::split::after(s, b' ', false));
    let shift = shift(line::split::before(s, b' ', false));
    let mut work = [0u8; 65536];
    let n = text::unfold_into(&mut work, &cal);
    show_fault(rt, fault_of(&work[..n], Context { shift }))
}
