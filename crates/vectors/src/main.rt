// Runs worked examples of lines and values: one a line on standard input, the line and its answer on standard output.
// A line is a letter, a blank and a text; empty lines are passed over. t, d: a DATE-TIME, a DATE at offset 0; >, <: a DATE-TIME at offset 1, -1;
// +, -: at offset 50,400, -50,400; p: a DURATION; w: a DATE-TIME written again; u: bytes in hex, unfolded and cut into lines;
// 0, 1: a value and a text in hex with a comma between them, compared by each collation;
// k: the offset as 50,400 more than it, a blank and a calendar in hex, of which the answer alone is written.
// Fixed text goes out by `write_all`, which needs no buffer to format it in; numbers by `print`.
#![tactic(auto)]

mod calendars;
mod lines;
mod times;

use std::alloc::Global;
use std::io;
use std::io::Read;
use text::Collation;
use time::date_time::{read_date, read_date_time};
use times::show_time;

fn answer(rt: &impl Print, kind: u8, text: &[u8]) -> io::Result<()> {
    match kind {
        b'd' => show_time(rt, read_date(text), 50400),
        b'p' => times::show_duration(rt, text),
        b'w' => times::write_again(rt, text),
        b'>' => show_time(rt, read_date_time(text), 50401),
        b'<' => show_time(rt, read_date_time(text), 50399),
        b'+' => show_time(rt, read_date_time(text), 100800),
        b'-' => show_time(rt, read_date_time(text), 0),
        b'0' => lines::compare(rt, text, Collation::Octet),
        b'1' => lines::compare(rt, text, Collation::AsciiCasemap),
        b'k' => calendars::check_hex(rt, text),
        b'u' => lines::unfold_hex(rt, text),
        _ => show_time(rt, read_date_time(text), 50400),
    }
}

// The line as it stands, and its answer.
fn answer_line(rt: &impl Print, line: &[u8]) -> io::Result<()> {
    match line {
        [] => Ok(()),
        [_] => rt.write_all(b"too short\n"),
        &[kind, _, ref text @ ..] => {
            if kind != b'k' {
                rt.write_all(line)?;
                rt.write_all(b" is ")?;
            }
            answer(rt, kind, text)?;
            rt.write_all(b"\n")
        }
    }
}

// Reads and answers one block of 65,536 bytes, in which whole lines stand, and says whether there was anything to read.
fn answer_block(rt: &(impl Input + Print), alloc: Global) -> io::Result<bool> {
    let mut block = Vec::new(alloc);
    rt.reader().take(65536).read_to_end(&mut block)?;
    for line in block.split(|&b| b == b'\n') {
        answer_line(rt, line)?;
    }
    Ok(!block.is_empty())
}

fn main(rt: HostRuntime) -> io::Result<()> {
    for _ in 0..1000 {
        if !answer_block(&rt, rt.alloc())? {
            break;
        }
    }
    Ok(())
}
