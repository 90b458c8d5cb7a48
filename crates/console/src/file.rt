// Files: read whole up to a buffer's length, and written, with word of what was replaced.
// A buffer is longer than any calendar that is answered, so a longer file is refused by the engine.
ghost use Rattle.std.specs.Prelude.{◌≤◌, length, IfOk};

use crate::stop::Stop;
use crate::{args, out};
use std::fs::{File, OpenOptions};
use std::io;
use std::io::{ErrorKind, Read, Write};
use std::rt::{Env, Files};
use thiserror::Error;

// Why a file was not read, as people are told.
#[derive(Clone, Copy, Debug, PartialEq, Eq, Error)]
pub enum Reason {
    #[error("there is no such file")]
    Missing,
    #[error("there is no leave to read it")]
    NoLeave,
    #[error("a part of its path is no directory")]
    NoDirectory,
    #[error("it is a directory")]
    Directory,
    #[error("it is no file name")]
    NoName,
    #[error("its name is too long")]
    LongName,
    #[error("the system could not read it")]
    Other,
}

// What became of a file that was written.
#[derive(Clone, Copy, Debug, PartialEq, Eq)]
pub enum Saved {
    New,
    Replaced,
}

// The system's numbers for what is no file name and for a name that is too long.
const NO_NAME: i32 = 22;

const LONG_NAME: i32 = 36;

// The system's number of an error as people are told it.
impl From<i32> for Reason {
    fn from(code: i32) -> Reason {
        match code {
            2 => Reason::Missing,
            13 => Reason::NoLeave,
            20 => Reason::NoDirectory,
            21 => Reason::Directory,
            NO_NAME => Reason::NoName,
            LONG_NAME => Reason::LongName,
            _ => Reason::Other,
        }
    }
}

// A file's name as text, for the library opens a file by text alone.
fn path_of(name: &[u8]) -> io::Result<&str> {
    if 4095 < name.len() {
        return Err(io::Error::from_raw_os_error(LONG_NAME));
    }
    std::str::from_utf8(name).map_err(|_| io::Error::from_raw_os_error(NO_NAME))
}

// The system's words for an error: the library writes its number behind them.
fn words_of(told: &str) -> &str {
    match told.split_once(" (os error ") {
        Some((words, _)) => words,
        None => told,
    }
}

// The system's own words go to standard error, and nothing hangs on whether they arrive.
pub fn tell(rt: &(impl Eprint + Alloc), name: &[u8], error: io::Error) -> io::Result<Reason> {
    let code = error.raw_os_error().unwrap_or(NO_NAME);
    let told = format!(in rt.alloc(); "{}", io::Error::from_raw_os_error(code))?;
    let shown = String::from_utf8_lossy(rt.alloc(), name)?;
    let _ = eprintln!(rt; "{shown}: {}", words_of(&told));
    Ok(Reason::from(code))
}

// Reads until the buffer is full, the file ends or a read fails.
fn read_all(file: &mut impl Read, into: &mut [u8]) -> io::Result<usize>
    ensures { IfOk result (λ n. n ≤ length into.new) }
{
    let mut n = 0;
    // Kept: a read goes on by as many bytes as it got, so there is no sequence to go over.
    while n < into.len() {
        let more = file.read(&mut into[n..])?;
        if more == 0 {
            return Ok(n);
        }
        n += more;
    }
    Ok(n)
}

// The first bytes of a file, as many as the buffer holds.
pub fn read_file<'a>(rt: &impl Files, name: &[u8], into: &'a mut [u8]) -> io::Result<&'a [u8]> {
    let mut file = File::open(rt, path_of(name)?)?;
    let n = read_all(&mut file, into)?;
    Ok(&into[..n])
}

// Opens a file as it is asked, and writes it.
fn write_through(rt: &impl Files, how: &OpenOptions, name: &[u8], bytes: &[u8]) -> io::Result<()> {
    let mut file = how.open(rt, path_of(name)?)?;
    file.write_all(bytes)
}

// Writes a file that is to be new; one that is there already is replaced.
pub fn save_file(rt: &impl Files, name: &[u8], bytes: &[u8]) -> io::Result<Saved> {
    let mut how = OpenOptions::new();
    how.write(true).create_new(true);
    let error = match write_through(rt, &how, name, bytes) {
        Ok(()) => return Ok(Saved::New),
        Err(error) => error,
    };
    if error.kind() != ErrorKind::AlreadyExists {
        return Err(error);
    }
    how.create_new(false).create(true).truncate(true);
    write_through(rt, &how, name, bytes)?;
    Ok(Saved::Replaced)
}

// The same as read_file, and a file that cannot be read is said.
pub fn read_or_say<'a>(
    rt: &(impl Files + Print + Eprint + Alloc),
    name: &[u8],
    into: &'a mut [u8],
) -> Result<&'a [u8], Stop> {
    match read_file(rt, name, into) {
        Ok(bytes) => Ok(bytes),
        Err(error) => {
            let reason = tell(rt, name, error)?;
            out::unreadable(rt, name, reason)?;
            Err(Stop::Said)
        }
    }
}

// Argument i as a file's name.
// Not one with `query::query_at`: they share two lines, and a function over what each does with the name would be as long.
pub fn file_at<'a>(
    rt: &(impl Env + Files + Print + Eprint + Alloc),
    i: usize,
    into: &'a mut [u8],
) -> Result<&'a [u8], Stop> {
    let mut buffer = [0u8; 4096];
    let name = args::word_at(rt, i, &mut buffer);
    read_or_say(rt, name, into)
}
