// What a line of the file is, by its first byte or its first word.
// No calendar line that is well formed can be taken for another kind.
use crate::lines::cut;

#[derive(Clone, Copy)]
pub enum Question {
    Report,
    Busy,
    Match,
}

#[derive(Clone, Copy)]
pub enum Kind {
    Empty,
    Comment,
    Answer,
    Example,
    Query,
    Lent,
    Times,
    Asked(Question),
    Calendar,
}

pub fn kind_of(line: &[u8]) -> Kind {
    match line {
        [] => return Kind::Empty,
        [b'#', ..] => return Kind::Comment,
        [b'|', ..] => return Kind::Answer,
        _ => {}
    }
    match cut(line, b' ').0 {
        b"example" => Kind::Example,
        b"query" => Kind::Query,
        b"lent" => Kind::Lent,
        b"times" => Kind::Times,
        b"report" => Kind::Asked(Question::Report),
        b"busy" => Kind::Asked(Question::Busy),
        b"match" => Kind::Asked(Question::Match),
        _ => Kind::Calendar,
    }
}
