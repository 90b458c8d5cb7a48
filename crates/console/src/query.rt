// The query's file: binary, or hex by its name.
// A file in bad hex is a wrong argument, and no refusal.
use crate::stop::Stop;
use crate::{args, file, out};
use cli::arguments::is_hex_name;
use cli::hex::{HexError, decode_hex};
use std::rt::{Env, Files};

// One that is too long stays too long for the engine.
fn from_hex<'a>(
    rt: &impl Print,
    name: &[u8],
    text: &[u8],
    query: &'a mut [u8],
) -> Result<&'a [u8], Stop> {
    match decode_hex(query, text) {
        Ok(n) => Ok(&query[..n]),
        Err(HexError::TooLong) => Ok(query),
        Err(HexError::Bad) => out::wrong_by(rt, HexError::Bad, name),
    }
}

// The query's bytes.
fn read_query<'a>(
    rt: &(impl Files + Print + Eprint + Alloc),
    name: &[u8],
    text: &mut [u8],
    query: &'a mut [u8],
) -> Result<&'a [u8], Stop> {
    if !is_hex_name(name) {
        return file::read_or_say(rt, name, query);
    }
    let room = text.len();
    let text = file::read_or_say(rt, name, text)?;
    if text.len() == room {
        return out::wrong(
            rt,
            b"the text of a .hex query is at most 131,071 bytes long",
        );
    }
    from_hex(rt, name, text, query)
}

// Argument i as a query's file; the text of a hex file goes through a buffer that is lent.
pub fn query_at<'a>(
    rt: &(impl Env + Files + Print + Eprint + Alloc),
    i: usize,
    text: &mut [u8],
    query: &'a mut [u8],
) -> Result<&'a [u8], Stop> {
    let mut buffer = [0u8; 4096];
    let name = args::word_at(rt, i, &mut buffer);
    read_query(rt, name, text, query)
}
