// Worked examples of unfolding, content lines and text match, their bytes in hex.
// What they print is compared with stored output.
ghost use Rattle.std.specs.Prelude.{◌≤◌, length};

use arrayvec::ArrayVec;
use index::IndexError;
use line::check::Next;
use std::io;
use text::Collation;

// The number of a hex digit in lower case; any other byte is 0.
// No Option: what a wrong byte counts as may not change, and both places that ask would turn none into 0.
fn digit(b: u8) -> u8
    ensures { result ≤ 15 }
{
    match b {
        b'0'..=b'9' => b - b'0',
        b'a'..=b'f' => b - b'a' + 10,
        _ => 0,
    }
}

// The bytes that a text in hex writes, as many as there is room for, behind those that are there.
// They go to the caller's array: one that is handed out would be copied whole.
pub fn decode<const N: usize>(bytes: &mut ArrayVec<u8, N>, hex: &[u8]) {
    let (pairs, _) = hex.as_chunks::<2>();
    for &[high, low] in pairs {
        if bytes.try_push(digit(high) * 16 + digit(low)).is_err() {
            break;
        }
    }
}

fn show_value(rt: &impl Print, v: &[u8]) -> io::Result<()> {
    rt.write_all(b" <")?;
    rt.write_all(v)?;
    rt.write_all(b">")
}

fn show_values(rt: &impl Print, p: &[u8]) -> io::Result<()> {
    let count = line::read::value_count(p);
    for i in 0..count {
        show_value(rt, line::read::parameter_value(p, i))?;
    }
    Ok(())
}

fn show_parameter(rt: &impl Print, p: &[u8]) -> io::Result<()> {
    rt.write_all(b" parameter ")?;
    rt.write_all(line::read::parameter_name(p))?;
    show_values(rt, p)
}

fn show_parameters(rt: &impl Print, l: &[u8]) -> io::Result<()> {
    let count = line::read::parameter_count(l);
    let texts = line::split::after(line::read::head(l), b';', true);
    for i in 0..count {
        show_parameter(rt, line::split::nth_part(texts, b';', true, i))?;
    }
    Ok(())
}

fn show_parts(rt: &impl Print, l: &[u8]) -> io::Result<()> {
    rt.write_all(b" [")?;
    rt.write_all(line::split::before(line::read::head(l), b';', true))?;
    show_parameters(rt, l)?;
    rt.write_all(b" value")?;
    show_value(rt, line::read::value(l))?;
    rt.write_all(b"]")
}

// The line l, which starts at this place of s.
fn show_line(rt: &impl Print, s: &[u8], from: usize, l: &[u8]) -> io::Result<()> {
    match line::check::next_good(s, from) {
        Next::Line(_, _) => show_parts(rt, l),
        Next::Bad => {
            rt.write_all(b" [bad ")?;
            rt.print(l.len())?;
            rt.write_all(b"]")
        }
        Next::End => Ok(()),
    }
}

fn show_lines(rt: &impl Print, s: &[u8]) -> io::Result<()> {
    let mut from = 0;
    while let Some((e, next)) = text::next_line(s, from) {
        show_line(rt, s, from, &s[from..e])?;
        from = next;
    }
    Ok(())
}

// The bound is that of `index::fill_index`, which docs/TRACE.md names.
fn show_check(rt: &impl Print, s: &[u8]) -> io::Result<()>
    requires { length s.now ≤ 65536 }
{
    let mut index = [0u32; 16385];
    match index::fill_index(&mut index, s) {
        Ok(_) => rt.write_all(b" good"),
        Err(IndexError::BadLine(n)) => {
            rt.write_all(b" bad line ")?;
            rt.print(n)
        }
        Err(IndexError::Full) => rt.write_all(b" too many lines"),
    }
}

fn show_contains(
    rt: &impl Print,
    value: &[u8],
    wanted: &[u8],
    collation: Collation,
) -> io::Result<()> {
    if search::contains(value, wanted, collation) {
        rt.write_all(b"contained")
    } else {
        rt.write_all(b"not contained")
    }
}

// Both texts, with a comma between them.
pub fn compare(rt: &impl Print, hex: &[u8], collation: Collation) -> io::Result<()> {
    let mut value = ArrayVec::<u8, 4096>::new();
    let mut wanted = ArrayVec::<u8, 4096>::new();
    decode(&mut value, line::split::before(hex, b',', false));
    decode(&mut wanted, line::split::after(hex, b',', false));
    show_contains(rt, &value, &wanted, collation)
}

// The calendar in hex is unfolded and cut into lines.
pub fn unfold_hex(rt: &impl Print, hex: &[u8]) -> io::Result<()> {
    let mut cal = ArrayVec::<u8, 4096>::new();
    decode(&mut cal, hex);
    let mut work = [0u8; 4096];
    let n = text::unfold_into(&mut work, &cal);
    rt.print(n)?;
    show_check(rt, &work[..n])?;
    show_lines(rt, &work[..n])
}
