// An answer as the file writes it: lines that begin with a bar and a blank, their ends LF.
// The same bytes are compared with what is written and printed where they differ.
use engine::Answer;
use std::io;
use std::io::Write;

// A report's lines, whole or its busy time alone; the other ones have no busy time to show.
// A flag and no closure: all lines or those of one word are asked for, and a closure would go through `put_answer` for that.
fn put_report(given: &mut impl Write, report: &[u8], whole: bool) -> io::Result<()> {
    let mut none = true;
    for ended in report.split(|&b| b == b'\n') {
        if let Some(line) = ended.strip_suffix(b"\r") {
            if whole || line.starts_with(b"FREEBUSY") {
                none = false;
                given.write_all(b"| ")?;
                given.write_all(line)?;
                given.write_all(b"\n")?;
            }
        }
    }
    if none {
        given.write_all(b"| no busy time\n")?;
    }
    Ok(())
}

// An answer whose report stands in `out`.
pub fn put_answer(given: &mut impl Write, a: Answer, out: &[u8], whole: bool) -> io::Result<()> {
    match a {
        Answer::Verdict(true) => given.write_all(b"| match\n"),
        Answer::Verdict(false) => given.write_all(b"| no match\n"),
        Answer::Length(n) => put_report(given, out.get(..n).unwrap_or(&[]), whole),
        Answer::Refused(n, 0) => writeln!(given, "| refused {n}"),
        Answer::Refused(n, line) => writeln!(given, "| refused {n}, line {line}"),
    }
}
