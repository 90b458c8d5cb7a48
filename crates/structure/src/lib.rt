// The structure of a file: its lines checked and indexed, its nesting checked, and its components written down as rows of numbers.
// Whoever reads a component later goes by index and rows; to pass one over is one look.
#![tactic(auto)]

pub mod calendar;
pub mod items;
pub mod rows;

ghost use Rattle.std.specs.Prelude.{◌≡◌, ◌*◌, ◌≤◌, ◌<◌, length};
ghost use Rattle.index.specs.Index.{Lines};
ghost use Rattle.structure.specs.Reading.{Ready, ClosesTo, StructureRead, FoundBy};

use delimiters::NestingStep;
use index::IndexError;
use nesting::StructureError;

// Reads the component of this name, whose lines begin with line `first`, and each component in it by this same function, and writes the rows of those.
// `begun` components have begun, this one among them, and at most `left` may be open inside each other from this one on: 8 for VCALENDAR.
// Here and in `read_rows` n goes beside the index, which is lent longer than its n lines (fixed memory).
fn component(
    rows: &mut [u32],
    s: &[u8],
    index: &[u32],
    n: usize,
    name: &[u8],
    first: usize,
    begun: usize,
    left: usize,
) -> Result<(usize, usize), usize>
    requires ready { Ready s.now index.now rows.old n first begun }
    requires left_bound { left ≤ 8 }
    ensures { ClosesTo s.now name.now rows.old rows.new n first begun left result }
{
    let mut i = first;
    let mut k = begun;
    // A `while`, since the lines of an inner component are passed in one step.
    while i < n {
        let line = index::line_at(s, index, i);
        let length = index::name_length(index, i);
        let next = i + 1;
        let more = k + 1;
        match delimiters::nesting_step(line, length, name, 10 - left, more) {
            NestingStep::Opens => {
                let inner = line::read::value(line);
                match component(rows, s, index, n, inner, next, more, left - 1) {
                    Ok((j, m)) => {
                        let kind = rows::kind_of(inner);
                        rows::put_row(rows, k, [next as u32, j as u32, m as u32, kind]);
                        i = j;
                        k = m;
                    }
                    Err(j) => return Err(j),
                }
            }
            NestingStep::Stays => {
                i = next;
            }
            NestingStep::Closes => return Ok((next, k)),
            NestingStep::Breaks => return Err(next),
        }
    }
    Err(n + 1)
}

// The nesting of the n lines of an index, and the rows of all components, VCALENDAR's first.
fn read_rows(rows: &mut [u32], s: &[u8], index: &[u32], n: usize) -> Result<(), StructureError>
    requires lines { Lines s.now index.now n }
    requires s_len_bound { length s.now ≤ 65536 }
    requires rows_len { length rows.old ≡ 1024 }
    ensures { StructureRead s.now index.now rows.new result }
{
    if n == 0 {
        return Err(StructureError::BadNesting(1));
    }
    let line = index::line_at(s, index, 0);
    if !delimiters::begins_calendar(line, index::name_length(index, 0)) {
        return Err(StructureError::BadNesting(1));
    }
    let name = line::read::value(line);
    match component(rows, s, index, n, name, 1, 1, 8) {
        Ok((j, m)) => {
            if j < n {
                return Err(StructureError::BadNesting(j + 1));
            }
            rows::put_row(rows, 0, [1, j as u32, m as u32, rows::kind_of(name)]);
            Ok(())
        }
        Err(j) => Err(StructureError::BadNesting(j)),
    }
}

// Is each line well formed and the nesting right? If so index and rows know the file; an index may be too short for its lines.
// Here and in `read_structure` the rows stay a lent slice with its length in a clause: docs/TRACE.md names that function, docs/LAYOUT.md this one.
pub fn find_structure(
    index: &mut [u32],
    rows: &mut [u32],
    s: &[u8],
) -> Option<Result<(), StructureError>>
    requires in_bounds { 1 ≤ length index.old }
    requires s_len_bound { length s.now ≤ 65536 }
    requires rows_len { length rows.old ≡ 1024 }
    ensures { FoundBy s.now index.new rows.new result }
{
    match index::fill_index(index, s) {
        Ok(n) => Some(read_rows(rows, s, index, n)),
        Err(IndexError::BadLine(b)) => Some(Err(StructureError::BadLine(b))),
        Err(IndexError::Full) => None,
    }
}

// The same with an index of more than a quarter of the bytes, which is never too short.
// That bound stays a clause, since docs/TRACE.md names this function; by it BadLine(0) is never answered, so a case of its own would be no plainer.
pub fn read_structure(index: &mut [u32], rows: &mut [u32], s: &[u8]) -> Result<(), StructureError>
    requires s_len_bound { length s.now < 4 * length index.old }
    requires s_len_bound_2 { length s.now ≤ 65536 }
    requires rows_len { length rows.old ≡ 1024 }
    ensures { StructureRead s.now index.new rows.new result }
{
    match find_structure(index, rows, s) {
        Some(structure) => structure,
        None => Err(StructureError::BadLine(0)),
    }
}
