// Runs the worked examples that standard input tells in a form for people, and says of each question whether its answer is as written.
// How the file is written stands at its head; its line ends are LF, and a calendar is handed on with CR LF.
#![tactic(auto)]

mod answer;
mod example;
mod kind;
mod lines;
mod queries;
mod question;

use answer::put_answer;
use arrayvec::ArrayVec;
use cli::arguments::offset_of;
use example::{Example, Stage};
use kind::{Kind, Question, kind_of};
use lines::{cut, lines_while, next_line};
use question::{ask_match, ask_report, read_plan};
use std::io;
use std::io::Read;

// A question's line, and what stands behind it.
#[derive(Clone, Copy)]
struct Asked<'a> {
    line: &'a [u8],
    behind: &'a [u8],
}

// One line on a question: the example, what is asked, and how the answer compares with the one that stands behind the question.
fn compare(rt: &impl Print, e: &Example, asked: Asked, given: &[u8]) -> io::Result<()> {
    let written = lines_while(asked.behind, |line| line.starts_with(b"|"));
    if written.is_empty() {
        return e.malformed(rt, "a question without an answer");
    }
    rt.write_all(e.name)?;
    print!(rt; ": ")?;
    rt.write_all(asked.line)?;
    if written == given {
        return println!(rt; ": as written");
    }
    println!(rt; ": DIFFERS, given")?;
    rt.write_all(given)
}

// A question for a report, whole or its busy time alone.
fn report(rt: &impl Print, e: &Example, asked: Asked, whole: bool) -> io::Result<()> {
    let Some(p) = read_plan(cut(asked.line, b' ').1) else {
        return e.malformed(rt, "start, end, offset and stamp are wanted");
    };
    let mut out = [0u8; 65536];
    let mut given = ArrayVec::<u8, 65536>::new();
    let a = ask_report(&mut out, &e.cal, p, e.lent);
    put_answer(&mut given, a, &out, whole)?;
    compare(rt, e, asked, &given)
}

// A question for a match.
fn matches(rt: &impl Print, text: &[u8], e: &Example, asked: Asked) -> io::Result<()> {
    let (offset, name) = cut(cut(asked.line, b' ').1, b' ');
    let Some(offset) = offset_of(offset) else {
        return e.malformed(rt, "an offset and a query's name are wanted");
    };
    let mut query = [0u8; 65536];
    let Some(query) = queries::read_query(&mut query, text, name) else {
        return e.malformed(rt, "the file has no such query, or it is no hex");
    };
    let mut given = ArrayVec::<u8, 65536>::new();
    let a = ask_match(&e.cal, query, offset, e.lent);
    put_answer(&mut given, a, query, true)?;
    compare(rt, e, asked, &given)
}

// A question, where one can stand.
fn ask(rt: &impl Print, text: &[u8], e: &mut Example, asked: Asked, q: Question) -> io::Result<()> {
    if e.stage == Stage::Outside || e.stage == Stage::Query {
        return e.malformed(rt, "a question before any example");
    }
    match q {
        Question::Report => report(rt, e, asked, true)?,
        Question::Busy => report(rt, e, asked, false)?,
        Question::Match => matches(rt, text, e, asked)?,
    }
    e.stage = Stage::Answer;
    Ok(())
}

// One line of the file; the next one begins behind it.
fn step<'a>(
    rt: &impl Print,
    text: &[u8],
    e: &mut Example<'a>,
    line: &'a [u8],
    behind: &[u8],
) -> io::Result<()> {
    if e.stage == Stage::Query && !line.is_empty() {
        return Ok(());
    }
    let words = cut(line, b' ').1;
    match kind_of(line) {
        Kind::Empty => e.pass(),
        Kind::Comment => e.pass(),
        Kind::Example => e.begin(Stage::Calendar, words),
        Kind::Query => e.begin(Stage::Query, words),
        Kind::Answer => return e.pass_answer(rt),
        Kind::Lent => return e.lend(rt, words),
        Kind::Times => return e.add_times(rt, words),
        Kind::Calendar => return e.add_calendar(rt, line, 1),
        Kind::Asked(q) => return ask(rt, text, e, Asked { line, behind }, q),
    }
    Ok(())
}

// Line after line.
fn run(rt: &impl Print, text: &[u8]) -> io::Result<()> {
    let mut e = Example::new();
    let mut rest = text;
    while let Some((line, behind)) = next_line(rest) {
        e.line = e.line.wrapping_add(1);
        step(rt, text, &mut e, line, behind)?;
        rest = behind;
    }
    Ok(())
}

fn main(rt: HostRuntime) -> io::Result<()> {
    let mut text = Vec::new(rt.alloc());
    rt.reader().take(131072).read_to_end(&mut text)?;
    if text.len() == 131072 {
        return println!(rt; "the file is longer than 131,071 bytes");
    }
    run(&rt, &text)
}
