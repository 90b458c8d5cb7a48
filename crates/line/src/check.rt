// Is every line of a file well formed, and if not, which is the first that is not?
// Lines are those between one CR LF and the next.
ghost use Rattle.std.specs.Prelude.{◌≡◌, ◌+◌, ◌≤◌, length};
ghost use Rattle.text.specs.Lines.{break_at};
ghost use Rattle.text.specs.Unfolding.{Nowhere};
ghost use Rattle.line.specs.WellFormed.{control_at, NextControl, NextAt};

use crate::scan;

// The line at a place. Three cases, of which the index takes each: an Option in a Result would nest two matches there.
#[derive(Clone, Copy)]
pub enum Next {
    // It is well formed: where its CR LF stands, and the length of its name.
    Line(usize, usize),
    // It is badly formed.
    Bad,
    // There is none.
    End,
}

// How many of the 32 places from this one on come before the first control? 32, where none does.
// No early return and counts of one byte, so that the machine tests sixteen places at once.
fn control_in(s: &[u8], i: usize) -> u8
    requires { i + 32 ≤ length s.now }
    ensures { Nowhere control_at s.now i (i + result) }
{
    let mut first: u8 = 32;
    for k in 0..32u8 {
        let b = s[i + (k as usize)];
        let here = if ascii::is_control(b) { k } else { 32 };
        first = first.min(here);
    }
    first
}

// A place up to which no control stands: there one does, or fewer than 32 bytes are left.
// A `while`, since it steps by 32 and the place that it stops at is the answer.
fn skip_clear(s: &[u8], from: usize) -> usize
    requires { from ≤ length s.now }
    ensures { Nowhere control_at s.now from result }
{
    let mut i = from;
    while 32 <= s.len() - i {
        let k = control_in(s, i);
        if k < 32 {
            return i + (k as usize);
        }
        i += 32;
    }
    i
}

// Where does the next control stand, at this place or after it? The length where none does.
fn next_control(s: &[u8], from: usize) -> usize
    requires { from ≤ length s.now }
    ensures { NextControl s.now from result }
{
    for i in skip_clear(s, from)..s.len() {
        if ascii::is_control(s[i]) {
            return i;
        }
    }
    s.len()
}

// Does CR LF stand at this place?
fn break_at(s: &[u8], i: usize) -> bool
    ensures { result ≡ break_at s.now i }
{
    if i < s.len() {
        if 1 < s.len() - i {
            return (s[i] == 13) & (s[i + 1] == 10);
        }
    }
    false
}

// Where the line that starts at this place ends and how long its name is, if it is well formed.
// A well formed line has no control, so the first one from its start on is the CR that ends it.
pub fn next_good(s: &[u8], from: usize) -> Next
    ensures { NextAt s.now from result }
{
    if s.len() <= from {
        return Next::End;
    }
    let e = next_control(s, from);
    if !break_at(s, e) {
        return Next::Bad;
    }
    match scan::clear_name(&s[from..e]) {
        Some(n) => Next::Line(e, n),
        None => Next::Bad,
    }
}
