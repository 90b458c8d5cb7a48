// A line of a calendar shown to people, once the calendar is unfolded.
// At most 75 bytes of it; a byte that is no printable ASCII is shown as \xNN.
use std::io;

fn print_byte(rt: &impl Print, b: u8) -> io::Result<()> {
    if b == b' ' || b.is_ascii_graphic() {
        return rt.write_all(&[b]);
    }
    print!(rt; "\\x{b:02x}")
}

fn print_start(rt: &impl Print, l: &[u8]) -> io::Result<()> {
    for &b in l.iter().take(75) {
        print_byte(rt, b)?;
    }
    Ok(())
}

// Line number n, counted from 1.
fn line_of(s: &[u8], n: usize) -> Option<&[u8]> {
    let mut from = 0;
    for _ in 1..n {
        (_, from) = text::next_line(s, from)?;
    }
    let (end, _) = text::next_line(s, from)?;
    Some(&s[from..end])
}

// The line at fault of a calendar that was refused; it is unfolded once more. Where there are fewer lines, the file stops too early.
// The number of the line is 0 where none is at fault, as in `engine::Answer`, which docs/TRACE.md names.
pub fn show_fault(rt: &impl Print, cal: &[u8], work: &mut [u8], line: usize) -> io::Result<()> {
    if line == 0 || work.len() < cal.len() {
        return Ok(());
    }
    let n = text::unfold_into(work, cal);
    let Some(l) = line_of(&work[..n], line) else {
        return println!(rt; "  the file stops too early");
    };
    print!(rt; "  ")?;
    print_start(rt, l)?;
    println!(rt)
}
