// Unfolding, content lines and text match: what is done to bytes before a line is read.
// Each function equals one definition of specs/.
// Searches take a slice and a place in it, not the rest of the slice, since they answer places in the whole. Those by blocks stay apart
// (here two, others in `line::check` and `fingerprints`): each tests other bytes in blocks of another size, so one over the test would be no shorter.
#![tactic(auto)]

ghost use Rattle.std.specs.Prelude.{◌≡◌, ◌+◌, ◌≤◌, ◌<◌, length};
ghost use Rattle.text.specs.TextMatch.{folded_by, starts_at};
ghost use Rattle.text.specs.Unfolding.{fold_at, Nowhere, Excludes, NextFold, Unfolded};
ghost use Rattle.text.specs.Lines.{break_at, StepsTo};

use ascii::copying::copy_over;

// How bytes are compared: as they are, or with a to z read as A to Z.
#[derive(Clone, Copy)]
pub enum Collation {
    Octet,
    AsciiCasemap,
}

// The byte as the collation compares it.
// The collation stays an argument: docs/TRACE.md names this function, and definition `folded_by` takes it.
pub fn fold(b: u8, c: Collation) -> u8
    ensures { result ≡ folded_by c b }
{
    match c {
        Collation::Octet => b,
        Collation::AsciiCasemap => ascii::upper(b),
    }
}

// Does the value go on with the text at this place?
pub fn starts_at(value: &[u8], text: &[u8], at: usize, collation: Collation) -> bool
    requires { at + length text.now ≤ length value.now }
    ensures { result ≡ starts_at collation value.now text.now at }
{
    for (i, &b) in text.iter().enumerate() {
        if fold(value[at + i], collation) != fold(b, collation) {
            return false;
        }
    }
    true
}

// Does a fold begin at this place?
fn fold_at(s: &[u8], i: usize) -> bool
    requires { i < length s.now }
    ensures { result ≡ fold_at s.now i }
{
    if s[i] != 13 {
        return false;
    }
    if s.len() - i < 3 {
        return false;
    }
    (s[i + 1] == 10) & ((s[i + 2] == 32) | (s[i + 2] == 9))
}

// Does a fold begin at one of the sixteen places from this one on? No early return, so that the machine tests them at once.
fn fold_near(s: &[u8], i: usize) -> bool
    requires { i + 18 ≤ length s.now }
    ensures { Excludes fold_at s.now i (i + 16) result }
{
    let mut found = false;
    for k in 0..16 {
        let at = i + k;
        found = found
            | ((s[at] == 13) & (s[at + 1] == 10) & ((s[at + 2] == 32) | (s[at + 2] == 9)));
    }
    found
}

// A place up to which no fold begins, sixteen by sixteen.
// A `while`, since it steps by sixteen and the place that it stops at is the answer: `step_by` would hide that place.
fn skip_unfolded(s: &[u8], from: usize) -> usize
    requires { from ≤ length s.now }
    ensures { Nowhere fold_at s.now from result }
{
    let mut i = from;
    while 18 <= s.len() - i {
        if fold_near(s, i) {
            return i;
        }
        i += 16;
    }
    i
}

// Where does the next fold begin, at this place or after it? The length where none does.
fn next_fold(s: &[u8], from: usize) -> usize
    requires { from ≤ length s.now }
    ensures { NextFold s.now from result }
{
    for i in skip_unfolded(s, from)..s.len() {
        if fold_at(s, i) {
            return i;
        }
    }
    s.len()
}

// Writes the unfolded calendar to the front of the work buffer, and answers how many bytes that is.
// A `loop`, since each turn goes on where the fold ends that it found.
// The bound of the work buffer stays a clause: the caller of the public calls lends it (C interface), and docs/TRACE.md names this function.
pub fn unfold_into(work: &mut [u8], cal: &[u8]) -> usize
    requires { length cal.now ≤ length work.old }
    ensures { Unfolded cal.now work.old work.new result }
{
    let mut n = 0;
    let mut i = 0;
    loop {
        let e = next_fold(cal, i);
        let many = e - i;
        copy_over(&mut work[n..n + many], &cal[i..e]);
        n += many;
        if cal.len() <= e {
            return n;
        }
        i = e + 3;
    }
}

// Does CR LF stand at this place?
fn break_at(s: &[u8], i: usize) -> bool
    requires { i + 1 < length s.now }
    ensures { result ≡ break_at s.now i }
{
    if s[i] != 13 {
        return false;
    }
    s[i + 1] == 10
}

// How many of the 64 places from this one on come before the first CR LF that begins there? 64, where none does.
// No early return and counts of one byte, so that the machine tests sixteen places at once and no branch depends on where a line ends.
// 64 turns, not 16: so few would be written out one by one before they could be done sixteen at once. Most lines end within 64 bytes.
fn break_in(s: &[u8], i: usize) -> u8
    requires { i + 65 ≤ length s.now }
    ensures { Nowhere break_at s.now i (i + result) }
{
    let mut first: u8 = 64;
    for k in 0..64u8 {
        let at = i + usize::from(k);
        let here = if (s[at] == 13) & (s[at + 1] == 10) {
            k
        } else {
            64
        };
        first = first.min(here);
    }
    first
}

// A place up to which no CR LF begins: there one begins, or fewer than 65 bytes are left.
// A `while`, since it steps by 64 and the place that it stops at is the answer.
fn skip_unbroken(s: &[u8], from: usize) -> usize
    requires { from ≤ length s.now }
    ensures { Nowhere break_at s.now from result }
{
    let mut i = from;
    while 65 <= s.len() - i {
        // An empty line needs no search.
        if break_at(s, i) {
            return i;
        }
        let k = break_in(s, i);
        if k < 64 {
            return i + usize::from(k);
        }
        i += 64;
    }
    i
}

// The line that starts at this place, ended or not, and where the next one starts.
pub fn next_line(s: &[u8], from: usize) -> Option<(usize, usize)>
    ensures { StepsTo s.now from result }
{
    if s.len() <= from {
        return None;
    }
    let last = s.len() - 1;
    for i in skip_unbroken(s, from)..last {
        if break_at(s, i) {
            return Some((i, i + 2));
        }
    }
    Some((s.len(), s.len()))
}
