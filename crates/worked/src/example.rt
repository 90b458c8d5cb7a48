// An example as far as it has been read: its name, its calendar, and the buffers that are lent.
// A line that cannot stand where it does is said to be so and passed over.
use crate::lines::cut;
use arrayvec::ArrayVec;
use cli::arguments::decimal_of;
use std::io;

// The lengths of the buffers that a question lends.
#[derive(Clone, Copy)]
pub struct Lent {
    pub work: usize,
    pub output: usize,
}

// Where in an example the next line stands.
#[derive(Clone, Copy, PartialEq, Eq)]
pub enum Stage {
    // Before any example, or behind a query.
    Outside,
    // In a query, which is passed over.
    Query,
    Calendar,
    // Behind a question, where a line of its answer may follow.
    Answer,
    // Behind an answer, where only another question may follow.
    Asked,
}

#[derive(Drop)]
pub struct Example<'a> {
    // The number of the line that is read, from 1.
    pub line: u64,
    pub name: &'a [u8],
    pub cal: ArrayVec<u8, 131072>,
    pub lent: Lent,
    pub stage: Stage,
}

impl<'a> Example<'a> {
    // No example yet.
    pub fn new() -> Example<'a> {
        Example {
            line: 0,
            name: &[],
            cal: ArrayVec::new(),
            lent: Lent {
                work: 65536,
                output: 65536,
            },
            stage: Stage::Outside,
        }
    }

    // The next example, or the next query, with that name.
    pub fn begin(&mut self, stage: Stage, name: &'a [u8]) {
        self.name = name;
        self.cal.clear();
        self.lent = Lent {
            work: 65536,
            output: 65536,
        };
        self.stage = stage;
    }

    // Says what is wrong with the line, which is passed over.
    pub fn malformed(&self, rt: &impl Print, what: &str) -> io::Result<()> {
        let line = self.line;
        println!(rt; "line {line} cannot be read: {what}")
    }

    // An empty line ends a query and an answer, and a comment ends an answer.
    pub fn pass(&mut self) {
        self.stage = match self.stage {
            Stage::Query => Stage::Outside,
            Stage::Answer => Stage::Asked,
            stage => stage,
        };
    }

    // A line of an answer was read with its question.
    pub fn pass_answer(&self, rt: &impl Print) -> io::Result<()> {
        if self.stage == Stage::Answer {
            return Ok(());
        }
        self.malformed(rt, "an answer without a question")
    }

    // The lengths that the next questions lend, each at most that of a block.
    pub fn lend(&mut self, rt: &impl Print, words: &[u8]) -> io::Result<()> {
        let (work, output) = cut(words, b' ');
        let Some(work) = decimal_of(work) else {
            return self.malformed(rt, "the length of the work buffer is wanted");
        };
        let Some(output) = decimal_of(output) else {
            return self.malformed(rt, "the length of the output buffer is wanted");
        };
        self.lent = Lent {
            work: work as usize,
            output: output as usize,
        };
        Ok(())
    }

    // A line of the calendar so many times, each with CR LF, where one can stand.
    pub fn add_calendar(&mut self, rt: &impl Print, line: &[u8], times: u64) -> io::Result<()> {
        if self.stage != Stage::Calendar {
            return self.malformed(rt, "a calendar line that stands in no example's calendar");
        }
        let before = self.cal.len();
        for _ in 0..times {
            let put = self.cal.try_extend_from_slice(line);
            let ended = self.cal.try_extend_from_slice(b"\r\n");
            if put.is_err() || ended.is_err() {
                self.cal.truncate(before);
                return self.malformed(rt, "there is no room for so long a calendar");
            }
        }
        Ok(())
    }

    // A number of times, and the line.
    pub fn add_times(&mut self, rt: &impl Print, words: &[u8]) -> io::Result<()> {
        let (times, line) = cut(words, b' ');
        let Some(times) = decimal_of(times) else {
            return self.malformed(rt, "a number of times is wanted");
        };
        self.add_calendar(rt, line, times)
    }
}
