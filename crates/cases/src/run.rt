// Standard input, read to its end, and the answers to its cases.
use crate::case::Case;
use crate::reader::Reader;
use std::io;
use std::io::Read;

// What a program answers to a case.
pub trait Answering {
    fn answer(&mut self, rt: &impl Print, case: &Case<'_>) -> io::Result<()>;
}

// Has every case of the input answered, and says which lines are none.
pub fn run(rt: &(impl Input + Print), answering: &mut impl Answering) -> io::Result<()> {
    let mut block = [0u8; 65536];
    let mut reader = Reader::new();
    let mut input = rt.reader();
    for _ in 0..u64::MAX {
        let n = input.read(&mut block)?;
        if n == 0 {
            break;
        }
        for &b in &block[..n] {
            if reader.feed(b) {
                answer_line(rt, &reader, answering)?;
                reader.next_line();
            }
        }
    }
    Ok(())
}

fn answer_line(rt: &impl Print, reader: &Reader, answering: &mut impl Answering) -> io::Result<()> {
    match reader.case() {
        Ok(case) => answering.answer(rt, &case),
        Err(unreadable) => println!(rt; "{unreadable}"),
    }
}
