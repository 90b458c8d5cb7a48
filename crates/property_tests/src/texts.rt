// A record's text against a value.
// Without a text any value holds up; the collation is the record's own.
// Collation, flag and the 0 for no text stay numbers, as the record keeps them (`query`):
// docs/TRACE.md names `collation_of` and `text_passes`, and these and `text_or` have definitions that take the numbers.
ghost use Rattle.std.specs.Prelude.{◌≡◌, ◌≤◌};
ghost use Rattle.property_tests.specs.PropertyTests.{collation_of, text_or, text_passes};

use query::Query;
use text::Collation;

// The collation of a record.
fn collation_of(n: usize) -> Collation
    ensures { result ≡ collation_of n }
{
    if n == 0 {
        Collation::Octet
    } else {
        Collation::AsciiCasemap
    }
}

// The bytes of a record's text, looked up once and handed on; none, where there is no text.
pub fn text_or<'a>(q: &Query<'a>, text: usize) -> &'a [u8]
    requires { text ≤ q.now.sections.texts.count }
    ensures { result.now ≡ text_or q.now.bytes.now q.now.sections text }
{
    if text == 0 {
        return &q.bytes[..0];
    }
    q.text_of(text - 1)
}

// Does a value hold up against text number n, whose bytes these are? Without one any value does.
pub fn text_passes(n: usize, text: &[u8], collation: usize, flag: usize, value: &[u8]) -> bool
    ensures { result ≡ text_passes n text.now collation flag value.now }
{
    if n == 0 {
        return true;
    }
    let has = search::contains(value, text, collation_of(collation));
    if flag == 2 { !has } else { has }
}
