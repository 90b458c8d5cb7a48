// Is a line well formed? One pass: a loop for the name, one for the value, and between them a state for what was read last.
// The states and steps are those of specs/Scanner.
ghost use Rattle.std.specs.Prelude.{◌+◌, ◌≤◌, ◌<◌, ◌≡◌, cond, eqb, drop};
ghost use Rattle.ascii.specs.Bytes.{is_name_byte, is_control};
ghost use Rattle.line.specs.Grammar.{is_quotable, is_unquoted};
ghost use Rattle.line.specs.Scanner.{Clear, step, after_value, is_ending, scan, name_bytes};
ghost use Rattle.line.specs.WellFormed.{well_formed_name};

// What was read last of a line.
#[derive(Clone, Copy)]
pub enum State {
    Start,
    Name,
    ParameterStart,
    ParameterName,
    ValueStart,
    Unquoted,
    Quoted,
    AfterQuoted,
    Value,
    Wrong,
}

// Where the scanner stands in a line.
#[derive(Clone, Copy)]
struct Place {
    at: usize,
    state: State,
}

// The length of the name of a well formed line: at most 1,024 bytes, and the scanner ends in the value.
// The line has no control, which is all that a value asks.
// `Clear` stays a clause: docs/TRACE.md names this function, which takes the bytes.
pub fn clear_name(line: &[u8]) -> Option<usize>
    requires { Clear line.now }
    ensures { result ≡ well_formed_name line.now }
{
    if 1024 < line.len() {
        return None;
    }
    let n = name_length(line);
    if (n == 0) | !is_behind_name(line, n) {
        return None;
    }
    Some(n)
}

// How many name bytes the line begins with.
fn name_length(line: &[u8]) -> usize
    ensures { result ≡ name_bytes line.now }
{
    for (i, &b) in line.iter().enumerate() {
        if !ascii::is_name_byte(b) {
            return i;
        }
    }
    line.len()
}

// May this stand behind a name? Most lines are a name, a colon and a value: no state is needed for those.
fn is_behind_name(line: &[u8], from: usize) -> bool
    requires { Clear line.now }
    ensures { result ≡ scan State.Name (drop from line.now) }
{
    if from < line.len() {
        if line[from] == 58 {
            return true;
        }
    }
    is_rest(line, from)
}

// What follows the name, as far as the colon. The scanner steps from one separator to the next;
// the usual bytes between two are passed by in loops of their own. A `while`, since each turn goes on where the part ends that it passed.
fn is_rest(line: &[u8], from: usize) -> bool
    requires { Clear line.now }
    ensures { result ≡ scan State.Name (drop from line.now) }
{
    let mut state = State::Name;
    let mut i = from;
    while i < line.len() {
        state = step(state, line[i]);
        i += 1;
        if is_ending(state) {
            return true;
        }
        let place = pass_part(line, i, state);
        i = place.at;
        state = place.state;
    }
    is_ending(state)
}

// A place from which the scanner decides as it does from here: anything unusual is left to its steps.
fn pass_part(line: &[u8], from: usize, state: State) -> Place
    ensures { (from ≤ result.at) × (scan result.state (drop result.at line.now) ≡ scan state (drop from line.now)) }
{
    match state {
        State::ParameterStart => pass_parameter(line, from),
        State::ValueStart => pass_value(line, from),
        _ => Place { at: from, state },
    }
}

// Behind the parameter's name, its equals sign and its first value.
fn pass_parameter(line: &[u8], from: usize) -> Place
    ensures { (from ≤ result.at) × (scan result.state (drop result.at line.now) ≡ scan State.ParameterStart (drop from line.now)) }
{
    if line.len() <= from {
        return Place {
            at: from,
            state: State::ParameterStart,
        };
    }
    if !ascii::is_name_byte(line[from]) {
        return Place {
            at: from,
            state: State::ParameterStart,
        };
    }
    let e = pass_name(line, from + 1);
    if e < line.len() {
        if line[e] == 61 {
            return pass_value(line, e + 1);
        }
    }
    Place {
        at: e,
        state: State::ParameterName,
    }
}

fn pass_value(line: &[u8], from: usize) -> Place
    ensures { (from ≤ result.at) × (scan result.state (drop result.at line.now) ≡ scan State.ValueStart (drop from line.now)) }
{
    if from < line.len() {
        let b = line[from];
        if b == 34 {
            return pass_string(line, from + 1);
        }
        if is_unquoted(b) {
            return Place {
                at: pass_unquoted(line, from + 1),
                state: State::Unquoted,
            };
        }
    }
    Place {
        at: from,
        state: State::ValueStart,
    }
}

// Behind the closing quote.
fn pass_string(line: &[u8], from: usize) -> Place
    ensures { (from ≤ result.at) × (scan result.state (drop result.at line.now) ≡ scan State.Quoted (drop from line.now)) }
{
    let e = pass_quoted(line, from);
    if e < line.len() {
        if line[e] == 34 {
            return Place {
                at: e + 1,
                state: State::AfterQuoted,
            };
        }
    }
    Place {
        at: e,
        state: State::Quoted,
    }
}

fn pass_name(line: &[u8], from: usize) -> usize
    ensures { (from ≤ result) × (scan State.ParameterName (drop result line.now) ≡ scan State.ParameterName (drop from line.now)) }
{
    for i in from..line.len() {
        if !ascii::is_name_byte(line[i]) {
            return i;
        }
    }
    from.max(line.len())
}

fn pass_unquoted(line: &[u8], from: usize) -> usize
    ensures { (from ≤ result) × (scan State.Unquoted (drop result line.now) ≡ scan State.Unquoted (drop from line.now)) }
{
    for i in from..line.len() {
        if !is_unquoted(line[i]) {
            return i;
        }
    }
    from.max(line.len())
}

fn pass_quoted(line: &[u8], from: usize) -> usize
    ensures { (from ≤ result) × (scan State.Quoted (drop result line.now) ≡ scan State.Quoted (drop from line.now)) }
{
    for i in from..line.len() {
        if !is_quotable(line[i]) {
            return i;
        }
    }
    from.max(line.len())
}

// Most bytes are letters: above the separators 127 alone is refused.
fn is_unquoted(b: u8) -> bool
    ensures { result ≡ is_unquoted b }
{
    if 59 < b {
        return b != 127;
    }
    !((b == 34) | (b == 59) | (b == 58) | (b == 44) | ascii::is_control(b))
}

fn is_quotable(b: u8) -> bool
    ensures { result ≡ is_quotable b }
{
    if 34 < b {
        return b != 127;
    }
    !((b == 34) | ascii::is_control(b))
}

fn is_ending(state: State) -> bool
    ensures { result ≡ is_ending state }
{
    matches!(state, State::Value)
}

// The state after one byte more.
fn step(state: State, b: u8) -> State
    ensures { result ≡ step state b }
{
    match state {
        State::Start => name_or(b, State::Name, State::Wrong),
        State::Name => name_or(b, State::Name, name_end(b)),
        State::ParameterStart => name_or(b, State::ParameterName, State::Wrong),
        State::ParameterName => name_or(
            b,
            State::ParameterName,
            byte_or(b, 61, State::ValueStart, State::Wrong),
        ),
        State::ValueStart => byte_or(
            b,
            34,
            State::Quoted,
            after_value(unless_control(b, State::Unquoted), b),
        ),
        State::Unquoted => byte_or(
            b,
            34,
            State::Wrong,
            after_value(unless_control(b, State::Unquoted), b),
        ),
        State::Quoted => byte_or(b, 34, State::AfterQuoted, unless_control(b, State::Quoted)),
        State::AfterQuoted => after_value(State::Wrong, b),
        State::Value => unless_control(b, State::Value),
        State::Wrong => State::Wrong,
    }
}

fn name_or(b: u8, inside: State, other: State) -> State
    ensures { result ≡ cond (is_name_byte b) inside other }
{
    if ascii::is_name_byte(b) {
        inside
    } else {
        other
    }
}

fn byte_or(b: u8, wanted: u8, found: State, other: State) -> State
    ensures { result ≡ cond (eqb b wanted) found other }
{
    if b == wanted { found } else { other }
}

fn unless_control(b: u8, state: State) -> State
    ensures { result ≡ cond (is_control b) State.Wrong state }
{
    if ascii::is_control(b) {
        State::Wrong
    } else {
        state
    }
}

fn name_end(b: u8) -> State
    ensures { result ≡ cond (eqb b 59) State.ParameterStart (cond (eqb b 58) State.Value State.Wrong) }
{
    byte_or(
        b,
        59,
        State::ParameterStart,
        byte_or(b, 58, State::Value, State::Wrong),
    )
}

// What may follow a parameter value.
fn after_value(state: State, b: u8) -> State
    ensures { result ≡ after_value state b }
{
    byte_or(
        b,
        44,
        State::ValueStart,
        byte_or(
            b,
            59,
            State::ParameterStart,
            byte_or(b, 58, State::Value, state),
        ),
    )
}
