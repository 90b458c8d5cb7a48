// Bytes cut at a separator: outside double quotes where `quoting` holds, else wherever it stands.
// One search serves the parts of a line, of a rule and of a list of periods.
// `quoting` stays an argument, which the definitions of specs/Splitting take: a const parameter would only move it between other brackets.
// Searches take a slice and a place in it, as in `text`: `find` answers a place in the whole.
ghost use Rattle.std.specs.Prelude.{◌≡◌, [], length, get_or, Bool, false};
ghost use Rattle.line.specs.Splitting.{quoted_after, next_place, before, after, split_parts, quotes_off};

// The place of the first separator from `from` on, or the end. Mostly there is no quote before it.
pub fn find(s: &[u8], from: usize, separator: u8, quoting: bool) -> usize
    ensures { result ≡ next_place quoting separator s.now from }
{
    let i = skip_usual(s, from, separator);
    if i < s.len() {
        if s[i] != separator {
            return find_outside(s, i, separator, quoting);
        }
    }
    i
}

// Past bytes that are neither the separator nor a quote.
fn skip_usual(s: &[u8], from: usize, separator: u8) -> usize
    ensures { (g : Bool) → next_place g separator s.now result ≡ next_place g separator s.now from }
{
    for i in from..s.len() {
        let b = s[i];
        if b == separator {
            return i;
        }
        if b == 34 {
            return i;
        }
    }
    from.max(s.len())
}

// The search byte by byte, with what it knows of quotes.
fn find_outside(s: &[u8], from: usize, separator: u8, quoting: bool) -> usize
    ensures { result ≡ next_place quoting separator s.now from }
{
    let mut quoted = false;
    for i in from..s.len() {
        let b = s[i];
        if (b == separator) & !quoted {
            return i;
        }
        quoted = quoted_after(quoting, quoted, b);
    }
    from.max(s.len())
}

fn quoted_after(quoting: bool, quoted: bool, b: u8) -> bool
    ensures { result ≡ quoted_after quoting quoted b }
{
    if quoting & (b == 34) { !quoted } else { quoted }
}

// The bytes before the first separator.
pub fn before(s: &[u8], separator: u8, quoting: bool) -> &[u8]
    ensures { result.now ≡ before quoting separator s.now }
{
    let e = find(s, 0, separator, quoting);
    &s[..e]
}

// The bytes behind it; none, where there is no separator.
pub fn after(s: &[u8], separator: u8, quoting: bool) -> &[u8]
    ensures { result.now ≡ after quoting separator s.now }
{
    let e = find(s, 0, separator, quoting);
    if e < s.len() { &s[e + 1..] } else { &s[..0] }
}

// A `while`, since each turn goes on behind the separator that it finds.
pub fn part_count(s: &[u8], separator: u8, quoting: bool) -> usize
    ensures { result ≡ length (split_parts quoting separator false s.now) }
{
    let mut n = 1;
    let mut at = find(s, 0, separator, quoting);
    while at < s.len() {
        n += 1;
        at = find(s, at + 1, separator, quoting);
    }
    n
}

// Piece number n, counted from 0; nothing, where there are not so many.
pub fn nth_part(s: &[u8], separator: u8, quoting: bool, n: usize) -> &[u8]
    ensures { result.now ≡ get_or (split_parts quoting separator false s.now) n [] }
{
    let mut from = 0;
    let mut at = find(s, 0, separator, quoting);
    for _ in 0..n {
        if s.len() <= at {
            return &s[..0];
        }
        from = at + 1;
        at = find(s, from, separator, quoting);
    }
    &s[from..at]
}

// A value between quotes without them, any other as it stands.
pub fn quotes_off(s: &[u8]) -> &[u8]
    ensures { result.now ≡ quotes_off s.now }
{
    if s.len() == 0 {
        return s;
    }
    if s[0] != 34 {
        return s;
    }
    if s.len() == 1 {
        return &s[..0];
    }
    let e = s.len() - 1;
    &s[1..e]
}
