// Cases read byte by byte, in fixed memory. A line that cannot be read is passed over to its end.
use crate::case::{CALENDAR, Call, Case, Numbers, QUERY, Unreadable};
use crate::number::Number;
use arrayvec::ArrayVec;
use std::error::Error;
use std::fmt;

// Why a line is no case.
#[derive(Clone, Copy, Debug, PartialEq, Eq)]
pub enum Fault {
    // A byte that may not stand there.
    Byte,
    // A field without a byte, or half of a byte in hex.
    Short,
    // More bytes than there is room for.
    Long,
    // A number that 64 bits do not hold.
    Large,
    // A sign at a number without one.
    Sign,
    // Too few fields, or too many.
    Fields,
}

impl fmt::Display for Fault {
    fn fmt<W: fmt::Write>(&self, f: &mut fmt::Formatter<W>) -> fmt::Result {
        match self {
            Fault::Byte => write!(f, "a byte that may not stand there"),
            Fault::Short => write!(f, "a field that is too short"),
            Fault::Long => write!(f, "a field that is too long"),
            Fault::Large => write!(f, "a number that is too large"),
            Fault::Sign => write!(f, "a sign at a number without one"),
            Fault::Fields => write!(f, "too few fields, or too many"),
        }
    }
}

impl Error for Fault {}

// The fields of a line in their order, and what is behind the last.
#[derive(Clone, Copy, Debug, PartialEq, Eq)]
enum Field {
    Call,
    Calendar,
    Query,
    Start,
    End,
    Offset,
    Stamp,
    Work,
    Out,
    Past,
}

impl Field {
    fn next(self) -> Field {
        match self {
            Field::Call => Field::Calendar,
            Field::Calendar => Field::Query,
            Field::Query => Field::Start,
            Field::Start => Field::End,
            Field::End => Field::Offset,
            Field::Offset => Field::Stamp,
            Field::Stamp => Field::Work,
            Field::Work => Field::Out,
            Field::Out | Field::Past => Field::Past,
        }
    }
}

// Bytes in hex as they are read, up to N.
#[derive(Drop)]
struct Bytes<const N: usize> {
    bytes: ArrayVec<u8, N>,
    // The first of two digits.
    high: Option<u8>,
}

impl<const N: usize> Bytes<N> {
    fn new() -> Bytes<N> {
        Bytes {
            bytes: ArrayVec::new(),
            high: None,
        }
    }

    fn clear(&mut self) {
        self.bytes.clear();
        self.high = None;
    }

    // One more byte of the field, its first or a later one; a dot in front stands for no byte.
    fn feed(&mut self, b: u8, first: bool) -> Result<(), Fault> {
        if first && (b == b'.' || b == b'-') {
            return Ok(());
        }
        let digit = hex_digit(b).ok_or(Fault::Byte)?;
        self.push(digit)
    }

    // One more digit, the first or the second of a byte.
    fn push(&mut self, digit: u8) -> Result<(), Fault> {
        match self.high.take() {
            None => self.high = Some(digit),
            Some(high) => self
                .bytes
                .try_push(high << 4 | digit)
                .map_err(|_| Fault::Long)?,
        }
        Ok(())
    }
}

// A hex digit's value.
fn hex_digit(b: u8) -> Option<u8> {
    match b {
        b'0'..=b'9' => Some(b - b'0'),
        b'A'..=b'F' => Some(b - b'A' + 10),
        b'a'..=b'f' => Some(b - b'a' + 10),
        _ => None,
    }
}

// How far a line has been read.
#[derive(Drop)]
pub struct Reader {
    field: Field,
    // Has the field a byte?
    begun: bool,
    call: Call,
    cal: Bytes<CALENDAR>,
    query: Bytes<QUERY>,
    // The number that is being read, and those that have been.
    number: Number,
    numbers: Numbers,
    // The first fault of the line.
    fault: Option<Fault>,
}

impl Reader {
    // Nothing has been read.
    pub fn new() -> Reader {
        Reader {
            field: Field::Call,
            begun: false,
            call: Call::Match,
            cal: Bytes::new(),
            query: Bytes::new(),
            number: Number::NONE,
            numbers: Numbers::new(1),
            fault: None,
        }
    }

    // One more byte of the input. Is it the end of a line that is not empty?
    pub fn feed(&mut self, b: u8) -> bool {
        // Nearly all of the input is digits of a calendar or a query: they take a short way.
        if self.fault.is_none() {
            if let Some(digit) = hex_digit(b) {
                match self.field {
                    Field::Calendar => {
                        self.begun = true;
                        self.fault = self.cal.push(digit).err();
                        return false;
                    }
                    Field::Query => {
                        self.begun = true;
                        self.fault = self.query.push(digit).err();
                        return false;
                    }
                    _ => {}
                }
            }
        }
        if b == b'\n' && self.is_empty() {
            return false;
        }
        if self.fault.is_none() {
            self.fault = self.read(b).err();
        }
        b == b'\n'
    }

    // The case of the line, now at its end.
    pub fn case(&self) -> Result<Case<'_>, Unreadable> {
        if self.fault.is_some() || self.field != Field::Past {
            return Err(self.numbers.unreadable());
        }
        Ok(Case {
            call: self.call,
            cal: &self.cal.bytes,
            query: &self.query.bytes,
            numbers: self.numbers,
        })
    }

    // Goes on to the line behind it.
    pub fn next_line(&mut self) {
        self.field = Field::Call;
        self.begun = false;
        self.cal.clear();
        self.query.clear();
        self.number = Number::NONE;
        self.numbers = Numbers::new(self.numbers.line.wrapping_add(1));
        self.fault = None;
    }

    // Has nothing of the line been read?
    pub fn is_empty(&self) -> bool {
        self.field == Field::Call && !self.begun && self.fault.is_none()
    }

    fn read(&mut self, b: u8) -> Result<(), Fault> {
        match b {
            b'\t' | b'\n' => self.end_field(),
            _ => self.read_field(b),
        }
    }

    // One more byte of a field.
    fn read_field(&mut self, b: u8) -> Result<(), Fault> {
        let first = !self.begun;
        self.begun = true;
        match self.field {
            Field::Call if first => self.call = call_of(b)?,
            Field::Call => {}
            Field::Calendar => self.cal.feed(b, first)?,
            Field::Query => self.query.feed(b, first)?,
            _ => self.number = self.number.with_byte(b, first)?,
        }
        Ok(())
    }

    // The field ends, at a tab or at the end of the line.
    fn end_field(&mut self) -> Result<(), Fault> {
        if !self.begun || self.cal.high.is_some() || self.query.high.is_some() {
            return Err(Fault::Short);
        }
        self.keep()?;
        self.field = self.field.next();
        self.begun = false;
        self.number = Number::NONE;
        Ok(())
    }

    // The number that was read goes to its place.
    fn keep(&mut self) -> Result<(), Fault> {
        let number = self.number;
        match self.field {
            Field::Call | Field::Calendar | Field::Query => {}
            Field::Start => self.numbers.start = number.unsigned()?,
            Field::End => self.numbers.end = number.unsigned()?,
            Field::Offset => self.numbers.offset = number.signed(),
            Field::Stamp => self.numbers.stamp = number.unsigned()?,
            Field::Work => self.numbers.work = number.unsigned()? as usize,
            Field::Out => self.numbers.out = number.unsigned()? as usize,
            Field::Past => return Err(Fault::Fields),
        }
        Ok(())
    }
}

// The call that the first letter of a line names.
fn call_of(b: u8) -> Result<Call, Fault> {
    match b {
        b'm' => Ok(Call::Match),
        b'r' => Ok(Call::Report),
        _ => Err(Fault::Byte),
    }
}
