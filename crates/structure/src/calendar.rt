// A calendar as its readers take it: its unfolded text, the index of its lines, and the rows of its components.
ghost use Rattle.std.specs.Prelude.{◌≡◌, ◌+◌, ◌*◌, ◌≤◌, ◌<◌, length, get_or};
ghost use Rattle.ascii.specs.Names.{same_name};
ghost use Rattle.line.specs.Reading.{name_of};
ghost use Rattle.index.specs.Index.{line_bytes, name_in, Entry};
ghost use Rattle.structure.specs.Items.{item_by};

use crate::items::Item;

// No fact stands in the type: docs/TRACE.md names readers of the rows alone (`item_at`, `series::masters::master_of`, `series::columns::fill_removed`),
// which may be asked where the lines are not indexed. So `Indexed` and `FileRows` stay clauses.
// `RowOf` and the bound of a row's number stay clauses too: docs/TRACE.md names functions that take calendar and number apart (`property_tests::some_named`).
#[derive(Clone, Copy)]
pub struct Calendar<'a> {
    pub text: &'a [u8],
    pub index: &'a [u32],
    pub rows: &'a [u32],
}

impl<'a> Calendar<'a> {
    // Line i, counted from 0, without its CR LF.
    pub fn line_at(&self, i: usize) -> &'a [u8]
        requires { Entry self.now.text.now self.now.index.now i }
        ensures { result.now ≡ line_bytes self.now.text.now i }
    {
        index::line_at(self.text, self.index, i)
    }

    // The length of the name of line i.
    pub fn name_length(&self, i: usize) -> usize
        requires { i < length self.now.index.now }
        ensures { result ≡ name_in (get_or self.now.index.now i 0) }
    {
        index::name_length(self.index, i)
    }

    // Has line i the name, ASCII case disregarded?
    pub fn is_called(&self, i: usize, name: &[u8]) -> bool
        requires { Entry self.now.text.now self.now.index.now i }
        ensures { result ≡ same_name (name_of (line_bytes self.now.text.now i)) name.now }
    {
        index::is_called(self.text, self.index, i, name)
    }

    // The line behind the BEGIN line of row k, counted from 0.
    pub fn first_line(&self, k: usize) -> usize
        requires { 4 * k + 4 ≤ length self.now.rows.now }
        ensures { result ≡ get_or self.now.rows.now (4 * k) 0 }
    {
        self.rows[4 * k] as usize
    }

    // The line behind its END line.
    pub fn line_behind(&self, k: usize) -> usize
        requires { 4 * k + 4 ≤ length self.now.rows.now }
        ensures { result ≡ get_or self.now.rows.now (4 * k + 1) 0 }
    {
        self.rows[4 * k + 1] as usize
    }

    // The row of the next component that does not stand in that of row k.
    pub fn next_row(&self, k: usize) -> usize
        requires { 4 * k + 4 ≤ length self.now.rows.now }
        ensures { result ≡ get_or self.now.rows.now (4 * k + 2) 0 }
    {
        self.rows[4 * k + 2] as usize
    }

    // What the component of row k is, as `rows::kind_of` says.
    pub fn kind_at(&self, k: usize) -> u32
        requires { 4 * k + 4 ≤ length self.now.rows.now }
        ensures { result ≡ get_or self.now.rows.now (4 * k + 3) 0 }
    {
        self.rows[4 * k + 3]
    }

    // The item at line i of a component whose END line is line j. Row k is that of the next component in it, and its rows end before row m.
    pub fn item_at(&self, i: usize, k: usize, j: usize, m: usize) -> Item
        requires m_bound { (m ≤ 256) × (4 * m ≤ length self.now.rows.now) }
        requires i_bound { i ≤ 65536 }
        ensures { result ≡ item_by self.now.rows.now i k j m }
    {
        if j <= i {
            return Item::Done;
        }
        if k < m {
            if self.first_line(k) == i + 1 {
                return Item::Inner(self.line_behind(k), self.next_row(k));
            }
        }
        Item::Property
    }
}
