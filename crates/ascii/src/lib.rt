// Kinds of bytes, ASCII case, and names compared without regard to case.
// Everything above reads bytes through these leaves.
#![tactic(auto)]

pub mod copying;

ghost use Rattle.std.specs.Prelude.{◌≡◌, eqb};
ghost use Rattle.ascii.specs.Bytes.{is_digit, is_letter, is_name_byte, is_control, upper};
ghost use Rattle.ascii.specs.Names.{same_name, is_name};

pub fn is_digit(b: u8) -> bool
    ensures { result ≡ is_digit b }
{
    b.is_ascii_digit()
}

fn is_letter(b: u8) -> bool
    ensures { result ≡ is_letter b }
{
    b.is_ascii_alphabetic()
}

pub fn is_name_byte(b: u8) -> bool
    ensures { result ≡ is_name_byte b }
{
    if (65 <= b) & (b <= 90) {
        return true;
    }
    is_letter(b) | is_digit(b) | (b == 45)
}

pub fn is_control(b: u8) -> bool
    ensures { result ≡ is_control b }
{
    ((b < 32) & (b != 9)) | (b == 127)
}

// The byte with a to z read as A to Z.
pub fn upper(b: u8) -> u8
    ensures { result ≡ upper b }
{
    b.to_ascii_uppercase()
}

// Are the two the same byte, ASCII case disregarded? Mostly they are so as they stand.
// It is the test of the loop in `same_name`, which by the library's `eq_ignore_ascii_case` took twice the time.
fn same_byte(a: u8, b: u8) -> bool
    ensures { result ≡ eqb (upper a) (upper b) }
{
    if a == b {
        return true;
    }
    upper(a) == upper(b)
}

// Are the two the same bytes, ASCII case disregarded?
// By an index: `eq_ignore_ascii_case` took twice the time of this, and so did a loop over `a.iter().enumerate()`.
pub fn same_name(a: &[u8], b: &[u8]) -> bool
    ensures { result ≡ same_name a.now b.now }
{
    if a.len() != b.len() {
        return false;
    }
    for i in 0..a.len() {
        if !same_byte(a[i], b[i]) {
            return false;
        }
    }
    true
}

// One or more name bytes.
pub fn is_name(s: &[u8]) -> bool
    ensures { result ≡ is_name s.now }
{
    !s.is_empty() && s.iter().all(|&b| is_name_byte(b))
}
