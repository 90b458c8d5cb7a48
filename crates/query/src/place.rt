// Where the sections of a query stand. Any bytes may be asked.
// Each section begins where the one before it ends.
ghost use Rattle.std.specs.Prelude.{◌≡◌, ◌+◌, ◌≤◌, ◌<◌, length};
ghost use Rattle.query.specs.Fits.{ByteOf};
ghost use Rattle.query.specs.Sections.{count_fits, place_within, behind_records, behind_text, behind_texts, behind_text_section};
ghost use Rattle.query.specs.Sections.{section_at, sections_of};

use crate::{Section, Sections};

// The byte at a place; 0 past the end.
pub fn byte_at(s: &[u8], i: usize) -> usize
    ensures { ByteOf s.now i result }
{
    if i < s.len() { s[i] as usize } else { 0 }
}

// Does a count from `least` to `most` stand there?
fn count_fits(s: &[u8], at: usize, least: usize, most: usize) -> bool
    ensures { result ≡ count_fits s.now at least most }
{
    let n = byte_at(s, at);
    (at < s.len()) & (least <= n) & (n <= most)
}

// The place n bytes on, where the bytes reach so far.
fn place_within(s: &[u8], at: usize, n: usize) -> Option<usize>
    requires { at ≤ length s.now }
    ensures { result ≡ place_within s.now (at + n) }
{
    if n <= s.len() - at {
        Some(at + n)
    } else {
        None
    }
}

// The place behind a section of records of one width.
fn behind_records(s: &[u8], at: usize, least: usize, most: usize, width: usize) -> Option<usize>
    requires { width ≤ 16 }
    ensures { result ≡ behind_records s.now at least most width }
{
    if count_fits(s, at, least, most) {
        place_within(s, at + 1, byte_at(s, at) * width)
    } else {
        None
    }
}

// The place behind one text.
fn behind_text(s: &[u8], at: usize) -> Option<usize>
    ensures { result ≡ behind_text s.now at }
{
    if at < s.len() {
        place_within(s, at + 1, byte_at(s, at))
    } else {
        None
    }
}

// The place behind n texts.
fn behind_texts(s: &[u8], n: usize, at: usize) -> Option<usize>
    ensures { result ≡ behind_texts s.now n at }
{
    let mut from = at;
    for _ in 0..n {
        from = behind_text(s, from)?;
    }
    Some(from)
}

// The place behind the section of texts.
fn behind_text_section(s: &[u8], at: usize) -> Option<usize>
    ensures { result ≡ behind_text_section s.now at }
{
    if count_fits(s, at, 0, 32) {
        behind_texts(s, byte_at(s, at), at + 1)
    } else {
        None
    }
}

// The section whose count stands there.
fn section_at(s: &[u8], at: usize) -> Section
    requires { at < length s.now }
    ensures { result ≡ section_at s.now at }
{
    Section {
        count: byte_at(s, at),
        at: at + 1,
    }
}

// The five sections, one behind the other.
pub fn sections_of(s: &[u8]) -> Option<Sections>
    ensures { result ≡ sections_of s.now }
{
    let t = behind_records(s, 0, 0, 8, 16)?;
    let c = behind_text_section(s, t)?;
    let p = behind_records(s, c, 1, 16, 4)?;
    let q = behind_records(s, p, 0, 32, 6)?;
    let e = behind_records(s, q, 0, 32, 5)?;
    Some(Sections {
        ranges: section_at(s, 0),
        texts: section_at(s, t),
        components: section_at(s, c),
        properties: section_at(s, p),
        parameters: section_at(s, q),
        end: e,
    })
}
