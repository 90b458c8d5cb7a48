// What a line is to the nesting, and what it does to the innermost open component.
// Each function equals one definition of specs/.
// `Wrong` and `Breaks` are cases like the others: definition `nesting_step_by` goes by the four delimiters, and whoever reads a file takes the four steps in one match.
#![tactic(auto)]

ghost use Rattle.std.specs.Prelude.{◌≡◌, length};
ghost use Rattle.line.specs.Reading.{name_of, line_of, value_of};
ghost use Rattle.delimiters.specs.Delimiters.{delimiter_of, delimited_by};
ghost use Rattle.delimiters.specs.Innermost.{may_begin, nesting_step_by, begins_calendar};

// What a line is to the nesting.
#[derive(Clone, Copy)]
pub enum Delimiter {
    Begins,
    Ends,
    Property,
    // A BEGIN or END line with a parameter, or whose value is no name.
    Wrong,
}

// What a line does to the innermost open component.
#[derive(Clone, Copy)]
pub enum NestingStep {
    // A component may begin in it.
    Opens,
    // It is a property.
    Stays,
    // It is its END line.
    Closes,
    // No continuation keeps the rules.
    Breaks,
}

// The delimiter of a line whose name is n bytes long. Mostly the first byte tells that it is a property.
fn delimiter_of(line: &[u8], n: usize) -> Delimiter
    requires { n ≡ length (name_of line.now) }
    ensures { result ≡ delimiter_of (line_of line.now) }
{
    if 0 < line.len() {
        let b = ascii::upper(line[0]);
        if (b != 66) & (b != 69) {
            return Delimiter::Property;
        }
    }
    if line::read::is_called(line, n, b"BEGIN") {
        return delimited_by(line, n, Delimiter::Begins);
    }
    if line::read::is_called(line, n, b"END") {
        return delimited_by(line, n, Delimiter::Ends);
    }
    Delimiter::Property
}

// The delimiter, if the line has no parameters and a name as value. Its own name is n bytes long; mostly the colon stands right behind it.
fn delimited_by(line: &[u8], n: usize, delimiter: Delimiter) -> Delimiter
    requires { n ≡ length (name_of line.now) }
    ensures { result ≡ delimited_by (line_of line.now) delimiter }
{
    if line::read::is_plain(line, n) {
        if ascii::is_name(&line[n + 1..]) {
            return delimiter;
        }
        return Delimiter::Wrong;
    }
    let count = line::read::parameter_count(line);
    let named = ascii::is_name(line::read::value(line));
    if (count == 0) & named {
        delimiter
    } else {
        Delimiter::Wrong
    }
}

// May a component of this name begin inside VCALENDAR, at this depth, as component number `count`?
fn may_begin(name: &[u8], depth: usize, count: usize) -> bool
    ensures { result ≡ may_begin name.now depth count }
{
    let calendar = ascii::same_name(name, b"VCALENDAR");
    let event = ascii::same_name(name, b"VEVENT");
    let free_busy = ascii::same_name(name, b"VFREEBUSY");
    !calendar & (depth <= 8) & (count <= 256) & ((depth == 2) | !(event | free_busy))
}

// What the line, whose own name is n bytes long, does to the innermost open component, of this name; one more would be at this depth, as component number `count`.
pub fn nesting_step(line: &[u8], n: usize, name: &[u8], depth: usize, count: usize) -> NestingStep
    requires { n ≡ length (name_of line.now) }
    ensures { result ≡ nesting_step_by (delimiter_of (line_of line.now)) (value_of line.now) name.now depth count }
{
    match delimiter_of(line, n) {
        Delimiter::Begins => {
            let value = line::read::value(line);
            if may_begin(value, depth, count) {
                NestingStep::Opens
            } else {
                NestingStep::Breaks
            }
        }
        Delimiter::Ends => {
            let value = line::read::value(line);
            if ascii::same_name(value, name) {
                NestingStep::Closes
            } else {
                NestingStep::Breaks
            }
        }
        Delimiter::Property => NestingStep::Stays,
        Delimiter::Wrong => NestingStep::Breaks,
    }
}

// Is it the line that begins VCALENDAR? Its name is n bytes long.
pub fn begins_calendar(line: &[u8], n: usize) -> bool
    requires { n ≡ length (name_of line.now) }
    ensures { result ≡ begins_calendar (line_of line.now) }
{
    if !line::read::is_called(line, n, b"BEGIN") {
        return false;
    }
    match delimited_by(line, n, Delimiter::Begins) {
        Delimiter::Begins => ascii::same_name(line::read::value(line), b"VCALENDAR"),
        _ => false,
    }
}
