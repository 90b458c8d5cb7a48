// Text search by a collation, in time linear in the value and the text.
// Short searches go place by place; after eight places that only began as the text does, a table of borders takes over (Knuth, Morris and Pratt).
// Text and table are no struct: while the table is filled, what such a type would say holds of its first entries alone.
#![tactic(auto)]

ghost use Rattle.std.specs.Prelude.{◌≡◌, ◌+◌, ◌≤◌, ◌<◌, length};
ghost use Rattle.text.specs.TextMatch.{contains};
ghost use Rattle.search.specs.Borders.{byte_of, Borders, Steps};

use text::Collation;

// Does the value contain the text?
pub fn contains(value: &[u8], text: &[u8], collation: Collation) -> bool
    ensures { result ≡ contains collation value.now text.now }
{
    if text.is_empty() {
        return true;
    }
    if value.len() < text.len() {
        return false;
    }
    let first = text::fold(text[0], collation);
    let places = value.len() - text.len() + 1;
    let mut tries: usize = 0;
    for at in 0..places {
        if text::fold(value[at], collation) == first {
            if (tries == 8) & (text.len() <= 256) {
                return contains_by_borders(&value[at..], text, collation);
            }
            if text::starts_at(value, text, at, collation) {
                return true;
            }
            tries += 1;
        }
    }
    false
}

// The same by the table alone, which no value makes slow.
fn contains_by_borders(value: &[u8], text: &[u8], collation: Collation) -> bool
    requires in_bounds { 1 ≤ length text.now }
    requires text_len_bound { length text.now ≤ 256 }
    ensures { result ≡ contains collation value.now text.now }
{
    // Fixed memory: the engine's crates use no heap.
    let mut table = [0u8; 256];
    fill_borders(&mut table, text, collation);
    seek(value, text, &table, collation)
}

// The table: entry q is how much of the first q bytes of the text is a border, as long as it can be.
fn fill_borders(table: &mut [u8], text: &[u8], collation: Collation)
    requires in_bounds { 1 ≤ length text.now }
    requires text_len_bound { length text.now ≤ 256 }
    requires text_in_bounds { length text.now ≤ length table.old }
    ensures table_len_unchanged { length table.new ≡ length table.old }
    ensures borders { Borders (byte_of collation text.now) (length text.now) table.new (length text.now) }
{
    let mut k = 0;
    for i in 1..text.len() {
        table[i] = k as u8;
        k = step(text, table, k, text::fold(text[i], collation), collation);
    }
}

// Byte by byte through the value: how much of the text stands before the place, as much as can be.
fn seek(value: &[u8], text: &[u8], table: &[u8], collation: Collation) -> bool
    requires in_bounds { 1 ≤ length text.now }
    requires text_in_bounds { length text.now ≤ length table.now }
    requires borders { Borders (byte_of collation text.now) (length text.now) table.now (length text.now) }
    ensures { result ≡ contains collation value.now text.now }
{
    let mut k = 0;
    for &b in value {
        k = step(text, table, k, text::fold(b, collation), collation);
        if k == text.len() {
            return true;
        }
    }
    false
}

// How much stands after one byte more, where `from` bytes stood before it. The table and the search both go by it.
// A `loop`, since it counts no index: it goes from border to shorter border.
fn step(text: &[u8], table: &[u8], from: usize, b: u8, collation: Collation) -> usize
    requires from_in_bounds { from < length text.now }
    requires text_in_bounds { length text.now ≤ length table.now }
    requires borders { Borders (byte_of collation text.now) (length text.now) table.now (from + 1) }
    ensures { Steps (byte_of collation text.now) (length text.now) from b result }
{
    let mut k = from;
    loop {
        if text::fold(text[k], collation) == b {
            return k + 1;
        }
        if k == 0 {
            return 0;
        }
        k = usize::from(table[k]);
    }
}
