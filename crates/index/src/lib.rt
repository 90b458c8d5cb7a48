// The index of lines: where each line of a file starts and how long its name is, found once and kept in lent memory.
// Whoever wants a line later asks by its number; nobody searches a line end again, nor the end of a name.
#![tactic(auto)]

ghost use Rattle.std.specs.Prelude.{◌≡◌, ◌+◌, ◌*◌, ◌≤◌, ◌<◌, length, get_or};
ghost use Rattle.ascii.specs.Names.{same_name};
ghost use Rattle.line.specs.Reading.{name_of};
ghost use Rattle.index.specs.Index.{FilledBy, Entry, line_bytes, name_in};

use line::check::Next;

// Why an index is not filled.
#[derive(Clone, Copy, PartialEq, Eq)]
pub enum IndexError {
    // The first badly formed line, counted from 1.
    BadLine(usize),
    // There are more lines than the index has room for.
    Full,
}

// Entry i is where line i starts, counted from 0, and the length of its name in units of 131,072; behind the last line stands the length of the file.
// Both in one number, as definition `name_in` has it: an index is lent memory of a fixed size.
// A line has four bytes or more with its CR LF, so an index of more than a quarter of the bytes is never full.
// The bound of s is that of the public calls. It stays a clause, here and above: docs/TRACE.md names this function and `structure::read_structure`.
pub fn fill_index(index: &mut [u32], s: &[u8]) -> Result<usize, IndexError>
    requires in_bounds { 1 ≤ length index.old }
    requires s_len_bound { length s.now ≤ 65536 }
    ensures { FilledBy s.now index.new result }
{
    let mut at = 0;
    for (n, entry) in index.iter_mut().enumerate() {
        match line::check::next_good(s, at) {
            Next::Line(e, name) => {
                *entry = (at + name * 131072) as u32;
                at = e + 2;
            }
            Next::Bad => return Err(IndexError::BadLine(n + 1)),
            Next::End => {
                *entry = at as u32;
                return Ok(n);
            }
        }
    }
    Err(IndexError::Full)
}

// Line i, counted from 0, without its CR LF.
pub fn line_at<'a>(s: &'a [u8], index: &[u32], i: usize) -> &'a [u8]
    requires { Entry s.now index.now i }
    ensures { result.now ≡ line_bytes s.now i }
{
    let a = index[i] as usize % 131072;
    let b = index[i + 1] as usize % 131072;
    &s[a..b - 2]
}

// The length of the name of line i.
pub fn name_length(index: &[u32], i: usize) -> usize
    requires { i < length index.now }
    ensures { result ≡ name_in (get_or index.now i 0) }
{
    index[i] as usize / 131072
}

// Has line i the name, ASCII case disregarded? Mostly the lengths tell, and no byte is looked at.
pub fn is_called(s: &[u8], index: &[u32], i: usize, name: &[u8]) -> bool
    requires { Entry s.now index.now i }
    ensures { result ≡ same_name (name_of (line_bytes s.now i)) name.now }
{
    line::read::is_called(line_at(s, index, i), name_length(index, i), name)
}
