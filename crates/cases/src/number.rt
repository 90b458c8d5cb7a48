// A number in decimal as it is read byte by byte, with its sign.
use crate::reader::Fault;

#[derive(Clone, Copy, Debug, PartialEq, Eq)]
pub struct Number {
    magnitude: u64,
    minus: bool,
}

impl Number {
    // Nothing of it has been read.
    pub const NONE: Number = Number {
        magnitude: 0,
        minus: false,
    };

    // The number with one more byte, its first or a later one.
    pub fn with_byte(self, b: u8, first: bool) -> Result<Number, Fault> {
        match b {
            b'-' if first => Ok(Number {
                minus: true,
                ..self
            }),
            b'0'..=b'9' => self.with_digit(u64::from(b - b'0')).ok_or(Fault::Large),
            _ => Err(Fault::Byte),
        }
    }

    // The number with one more digit, where 64 bits hold its magnitude.
    fn with_digit(self, digit: u64) -> Option<Number> {
        let magnitude = self.magnitude.checked_mul(10)?.checked_add(digit)?;
        Some(Number { magnitude, ..self })
    }

    // The number without a sign.
    pub fn unsigned(self) -> Result<u64, Fault> {
        if self.minus {
            return Err(Fault::Sign);
        }
        Ok(self.magnitude)
    }

    // The number with its sign, where 64 bits hold it.
    pub fn signed(self) -> Option<i64> {
        if self.minus {
            return 0i64.checked_sub_unsigned(self.magnitude);
        }
        i64::try_from(self.magnitude).ok()
    }
}
