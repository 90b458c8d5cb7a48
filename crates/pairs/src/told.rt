// What is printed of two calls.
use engine::Answer;
use std::fmt;

// An answer; a refusal has the line where its fault stands, if it has one.
#[derive(Clone, Copy)]
pub struct Told(pub Answer);

impl fmt::Display for Told {
    fn fmt<W: fmt::Write>(&self, f: &mut fmt::Formatter<W>) -> fmt::Result {
        match self.0 {
            Answer::Verdict(yes) => write!(f, "verdict {}", u8::from(yes)),
            Answer::Length(n) => write!(f, "report {n}"),
            Answer::Refused(n, 0) => write!(f, "refused {n}"),
            Answer::Refused(n, line) => write!(f, "refused {n} at line {line}"),
        }
    }
}

pub fn told_same(same: bool) -> &'static str {
    if same {
        "the same bytes"
    } else {
        "not the same bytes"
    }
}

pub fn told_heads(heads: bool) -> &'static str {
    if heads {
        "heads match"
    } else {
        "heads do not match"
    }
}
