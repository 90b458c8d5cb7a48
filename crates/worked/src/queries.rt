// The queries of the file, each under its name: hex with comments, up to an empty line.
// A question names its query, so that one query serves several examples.
use crate::lines::{lines_while, next_line};
use cli::hex::decode_hex;

// What stands behind the line with the name.
fn behind_name<'a>(text: &'a [u8], name: &[u8]) -> Option<&'a [u8]> {
    let mut rest = text;
    while let Some((line, behind)) = next_line(rest) {
        if line
            .strip_prefix(b"query ")
            .is_some_and(|named| named == name)
        {
            return Some(behind);
        }
        rest = behind;
    }
    None
}

// The bytes of the query with a name, if it is there and is hex.
pub fn read_query<'a>(query: &'a mut [u8], text: &[u8], name: &[u8]) -> Option<&'a [u8]> {
    let behind = behind_name(text, name)?;
    if behind.is_empty() {
        return None;
    }
    let n = decode_hex(query, lines_while(behind, |line| !line.is_empty())).ok()?;
    query.get(..n)
}
