// Bytes written in hex: pairs of digits, blanks and line ends between pairs, and comments from # to the end of the line.
// What does not fit the lent memory is told apart from what is no hex.
ghost use Rattle.std.specs.Prelude.{◌≡◌, Some};
ghost use Rattle.cli.specs.Hex.{hex_digit, is_blank, from_between, from_half, from_comment, step_of, at_end, Decodes, error_words};

use std::error::Error;
use std::fmt;

// What was read before: whole pairs, the first digit of a pair, or a comment's beginning.
#[derive(Clone, Copy, Debug, PartialEq, Eq)]
pub enum Place {
    Between,
    Half(u8),
    Comment,
}

// What one byte does: it is passed, or it completes a byte.
#[derive(Clone, Copy, Debug, PartialEq, Eq)]
pub enum Step {
    To(Place),
    Byte(u8),
}

// Why a text was not decoded.
#[derive(Clone, Copy, Debug, PartialEq, Eq)]
pub enum HexError {
    Bad,
    TooLong,
}

impl fmt::Display for HexError {
    ghost output = { λ e. Some (error_words e) };

    #[tactic(auto, unfolding(crate::specs::Hex::error_words))]
    fn fmt<W: fmt::Write>(&self, f: &mut fmt::Formatter<W>) -> fmt::Result {
        match self {
            HexError::Bad => f.write_str("a .hex query is pairs of hex digits"),
            HexError::TooLong => f.write_str(
                "a .hex query writes no more bytes than there is room for",
            ),
        }
    }
}

impl Error for HexError {}

// A digit's value.
#[tactic(auto, unfolding(crate::specs::Hex::hex_digit))]
fn hex_digit(b: u8) -> Option<u8>
    ensures { result ≡ hex_digit b }
{
    match b {
        b'0'..=b'9' => Some(b - b'0'),
        b'A'..=b'F' => Some(b - b'A' + 10),
        b'a'..=b'f' => Some(b - b'a' + 10),
        _ => None,
    }
}

#[tactic(auto, unfolding(crate::specs::Hex::is_blank))]
fn is_blank(b: u8) -> bool
    ensures { result ≡ is_blank b }
{
    (b == b' ') | (b == b'\t') | (b == b'\n') | (b == b'\r')
}

// A byte that is wrong does nothing.
#[tactic(auto, unfolding(crate::specs::Hex::from_between, crate::specs::Hex::begun))]
fn from_between(b: u8) -> Option<Step>
    ensures { result ≡ from_between b }
{
    if b == b'#' {
        return Some(Step::To(Place::Comment));
    }
    if is_blank(b) {
        return Some(Step::To(Place::Between));
    }
    let d = hex_digit(b)?;
    Some(Step::To(Place::Half(d)))
}

#[tactic(auto, unfolding(crate::specs::Hex::from_half, crate::specs::Hex::completed))]
fn from_half(h: u8, b: u8) -> Option<Step>
    ensures { result ≡ from_half h b }
{
    let d = hex_digit(b)?;
    if 15 < h {
        return None;
    }
    Some(Step::Byte(h * 16 + d))
}

#[tactic(auto, unfolding(crate::specs::Hex::from_comment))]
fn from_comment(b: u8) -> Step
    ensures { result ≡ from_comment b }
{
    if b == b'\n' {
        return Step::To(Place::Between);
    }
    Step::To(Place::Comment)
}

#[tactic(auto, unfolding(crate::specs::Hex::step_of))]
fn step_of(p: Place, b: u8) -> Option<Step>
    ensures { result ≡ step_of p b }
{
    match p {
        Place::Between => from_between(b),
        Place::Half(h) => from_half(h, b),
        Place::Comment => Some(from_comment(b)),
    }
}

// Does the text end where a pair is whole?
#[tactic(auto, unfolding(crate::specs::Hex::at_end, crate::specs::Hex::whole))]
fn at_end(p: Place, n: usize) -> Result<usize, HexError>
    ensures { result ≡ at_end p n }
{
    match p {
        Place::Between => Ok(n),
        Place::Half(_) => Err(HexError::Bad),
        Place::Comment => Ok(n),
    }
}

// The bytes that a text in hex writes, up to what is wrong in it, as many as there is room for.
pub fn decode_hex(out: &mut [u8], text: &[u8]) -> Result<usize, HexError>
    ensures { Decodes text.now out.old out.new result }
{
    let mut p = Place::Between;
    let mut n = 0;
    for &b in text {
        let Some(step) = step_of(p, b) else {
            return Err(HexError::Bad);
        };
        match step {
            Step::To(q) => p = q,
            Step::Byte(x) => {
                if n == out.len() {
                    return Err(HexError::TooLong);
                }
                out[n] = x;
                n += 1;
                p = Place::Between;
            }
        }
    }
    at_end(p, n)
}
