// The lines of the file, and the words of a line.
ghost use Rattle.std.specs.Prelude.{◌+◌, ◌<◌, ◌≤◌, length, IfSome};

// What stands before the first such byte, and behind it: nothing, where there is none.
pub fn cut(s: &[u8], b: u8) -> (&[u8], &[u8])
    ensures { (length result.0.now + length result.1.now ≤ length s.now) × (0 < length s.now → length result.1.now < length s.now) }
{
    match s.iter().position(|&x| x == b) {
        Some(e) => (&s[..e], &s[e + 1..]),
        None => (s, &[]),
    }
}

// The first line, and what stands behind it.
pub fn next_line(text: &[u8]) -> Option<(&[u8], &[u8])>
    ensures { IfSome result (λ r. length r.1.now < length text.now) }
{
    if text.is_empty() {
        return None;
    }
    Some(cut(text, b'\n'))
}

// The lines at the start of a text, up to the first that is not wanted.
pub fn lines_while<F: Fn(&[u8]) -> bool>(text: &[u8], wanted: F) -> &[u8]
    requires { F.IsAlwaysCallable wanted }
{
    let mut rest = text;
    while let Some((line, behind)) = next_line(rest) {
        if !wanted(line) {
            break;
        }
        rest = behind;
    }
    &text[..text.len() - rest.len()]
}
