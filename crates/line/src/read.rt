// The name, the parameters and the value of a line, read in place.
// A part that is handed back is a part of the caller's own slice.
// A line and the length of its name stay two arguments: docs/TRACE.md names functions that take them so (those here, `delimiters::nesting_step`).
ghost use Rattle.std.specs.Prelude.{◌≡◌, [], ◌<◌, length, get_or};
ghost use Rattle.ascii.specs.Names.{same_name};
ghost use Rattle.line.specs.Reading.{head_of, value_of, name_of, parameter_texts, parameter_name, is_named, values_of};
ghost use Rattle.line.specs.Reading.{parameter_of, line_of, is_plain_at, usage_of, counted_with, has_parameter, first_value};

use crate::split;

// How often a parameter of a name stands on a line, and whether one of them has more than one value.
#[derive(Clone, Copy)]
pub struct Usage {
    pub times: usize,
    pub listed: bool,
}

// Name and parameters: what stands before the line's colon.
pub fn head(line: &[u8]) -> &[u8]
    ensures { result.now ≡ head_of line.now }
{
    split::before(line, 58, true)
}

// What stands behind the line's colon.
pub fn value(line: &[u8]) -> &[u8]
    ensures { result.now ≡ value_of line.now }
{
    split::after(line, 58, true)
}

// Is this the line's name, ASCII case disregarded? The name is n bytes long, and mostly that tells.
pub fn is_called(line: &[u8], n: usize, name: &[u8]) -> bool
    requires { n ≡ length (name_of line.now) }
    ensures { result ≡ same_name (name_of line.now) name.now }
{
    if n != name.len() {
        return false;
    }
    ascii::same_name(&line[..n], name)
}

// Does the colon stand right behind the name, which is n bytes long? Then the line has no parameters, and its value is what is left.
pub fn is_plain(line: &[u8], n: usize) -> bool
    requires { n ≡ length (name_of line.now) }
    ensures { result ≡ is_plain_at line.now n }
{
    if line.len() <= n {
        return false;
    }
    line[n] == 58
}

// What stands behind the line's colon, by the length of the name: in a plain line nothing is searched.
pub fn value_behind(line: &[u8], n: usize) -> &[u8]
    requires { n ≡ length (name_of line.now) }
    ensures { result.now ≡ value_of line.now }
{
    if is_plain(line, n) {
        return &line[n + 1..];
    }
    value(line)
}

pub fn parameter_count(line: &[u8]) -> usize
    ensures { result ≡ length (parameter_texts line.now) }
{
    split::part_count(head(line), 59, true) - 1
}

pub fn parameter_name(p: &[u8]) -> &[u8]
    ensures { result.now ≡ parameter_name p.now }
{
    split::before(p, 61, true)
}

// Does the parameter have the name, ASCII case disregarded?
pub fn is_named(p: &[u8], name: &[u8]) -> bool
    ensures { result ≡ is_named name.now p.now }
{
    ascii::same_name(parameter_name(p), name)
}

pub fn value_count(p: &[u8]) -> usize
    ensures { result ≡ length (values_of p.now) }
{
    split::part_count(split::after(p, 61, true), 44, true)
}

// Value number n of a parameter, quotes taken off; nothing, where there are not so many.
pub fn parameter_value(p: &[u8], n: usize) -> &[u8]
    ensures { result.now ≡ get_or (values_of p.now) n [] }
{
    split::quotes_off(split::nth_part(split::after(p, 61, true), 44, true, n))
}

// How the name is used on the line, in one pass over its parameters.
// A `while` here and in `first_value`, since each turn goes on at the separator that it finds.
pub fn usage_of(line: &[u8], name: &[u8]) -> Usage
    ensures { result ≡ usage_of name.now (line_of line.now).parameters }
{
    let h = head(line);
    let mut u = Usage {
        times: 0,
        listed: false,
    };
    let mut at = split::find(h, 0, 59, true);
    while at < h.len() {
        let from = at + 1;
        let e = split::find(h, from, 59, true);
        u = counted(u, &h[from..e], name);
        at = e;
    }
    u
}

// The count with the parameter p, where that has the name.
fn counted(u: Usage, p: &[u8], name: &[u8]) -> Usage
    requires { u.times < 18446744073709551615 }
    ensures { result ≡ counted_with name.now u (parameter_of p.now) }
{
    let times = u.times;
    let listed = u.listed;
    if is_named(p, name) {
        let list = 1 < value_count(p);
        Usage {
            times: times + 1,
            listed: listed | list,
        }
    } else {
        u
    }
}

pub fn has_parameter(line: &[u8], name: &[u8]) -> bool
    ensures { result ≡ has_parameter name.now (line_of line.now) }
{
    let u = usage_of(line, name);
    0 < u.times
}

// The first value of the first parameter of the name, quotes taken off; nothing, where there is none.
pub fn first_value<'a>(line: &'a [u8], name: &[u8]) -> &'a [u8]
    ensures { result.now ≡ first_value name.now (line_of line.now) }
{
    let h = head(line);
    let mut at = split::find(h, 0, 59, true);
    while at < h.len() {
        let from = at + 1;
        let e = split::find(h, from, 59, true);
        let p = &h[from..e];
        if is_named(p, name) {
            return parameter_value(p, 0);
        }
        at = e;
    }
    &h[..0]
}
