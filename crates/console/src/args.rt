// The numbers among the arguments; what is wrong with one is said here.
ghost use Rattle.std.specs.Prelude.{◌≤◌, length};

use crate::out;
use crate::stop::Stop;
use cli::arguments::{Plan, offset_of, second_of};
use std::env::FillError;
use std::rt::Env;

// How many arguments there are, the program's name among them.
pub fn count(rt: &impl Env) -> usize {
    for i in 0..usize::MAX {
        if let Err(FillError::NotPresent) = rt.arg(i, &mut []) {
            return i;
        }
    }
    usize::MAX
}

// Argument i, or nothing where it is missing or longer than the buffer.
pub fn word_at<'a>(rt: &impl Env, i: usize, into: &'a mut [u8]) -> &'a [u8]
    ensures { length result.now ≤ length into.old }
{
    let n = rt.arg(i, into).unwrap_or(0);
    &into[..n]
}

// Argument i as what it is read to be; the words say what that is.
fn value_at<T, F: FnOnce(&[u8]) -> Option<T>>(
    rt: &(impl Env + Print),
    i: usize,
    wanted: &[u8],
    read: F,
) -> Result<T, Stop>
    requires { F.IsAlwaysCallable read }
{
    let mut buffer = [0u8; 64];
    let word = word_at(rt, i, &mut buffer);
    match read(word) {
        Some(value) => Ok(value),
        None => out::wrong_word(rt, wanted, word),
    }
}

// Argument i as a second.
fn second_at(rt: &(impl Env + Print), i: usize) -> Result<u64, Stop> {
    value_at(
        rt,
        i,
        b"a time is seconds or UTC as 20240311T080000Z",
        second_of,
    )
}

// Argument i as an offset.
pub fn offset_at(rt: &(impl Env + Print), i: usize) -> Result<i64, Stop> {
    value_at(
        rt,
        i,
        b"an offset is seconds as -18000, or as +02:00",
        offset_of,
    )
}

// Start, end, offset and stamp by their numbers among the arguments.
pub fn read_plan(
    rt: &(impl Env + Print),
    start: usize,
    end: usize,
    offset: usize,
    stamp: usize,
) -> Result<Plan, Stop> {
    let start = second_at(rt, start)?;
    let end = second_at(rt, end)?;
    let offset = offset_at(rt, offset)?;
    let stamp = second_at(rt, stamp)?;
    Ok(Plan {
        start,
        end,
        offset,
        stamp,
    })
}
