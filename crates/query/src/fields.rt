// The records of a query, each read in place. Each reader is one expression of its own bytes, so a trait for the three kinds of record, or one reader for start and end, would be longer.
ghost use Rattle.std.specs.Prelude.{◌≡◌, ◌+◌, ◌≤◌, ◌<◌, length};
ghost use Rattle.query.specs.Records.{number8, range_start, range_end, text_place, text_of, component_at, property_at, parameter_at};

use crate::{ComponentRecord, ParameterRecord, PropertyRecord, Query, place};

// Eight bytes, high byte first.
#[tactic(auto, unfolding(crate::specs::Records::number8, crate::specs::Sections::byte_at))]
fn number8(s: &[u8], at: usize) -> u64
    requires { at + 8 ≤ length s.now }
    ensures { result ≡ number8 s.now at }
{
    u64::from_be_bytes([
        s[at],
        s[at + 1],
        s[at + 2],
        s[at + 3],
        s[at + 4],
        s[at + 5],
        s[at + 6],
        s[at + 7],
    ])
}

impl<'a> Query<'a> {
    // The start of range i.
    pub fn range_start(&self, i: usize) -> u64
        requires { i < self.now.sections.ranges.count }
        ensures { result ≡ range_start self.now.bytes.now self.now.sections i }
    {
        number8(self.bytes, self.sections.ranges.at + i * 16)
    }

    // The end of range i.
    pub fn range_end(&self, i: usize) -> u64
        requires { i < self.now.sections.ranges.count }
        ensures { result ≡ range_end self.now.bytes.now self.now.sections i }
    {
        number8(self.bytes, self.sections.ranges.at + i * 16 + 8)
    }

    // Where text n begins, its length byte first.
    fn text_place(&self, n: usize) -> usize
        requires { n < self.now.sections.texts.count }
        ensures { result ≡ text_place self.now.bytes.now n self.now.sections.texts.at }
    {
        let mut at = self.sections.texts.at;
        for _ in 0..n {
            at = at + 1 + place::byte_at(self.bytes, at);
        }
        at
    }

    // Text n.
    pub fn text_of(&self, n: usize) -> &'a [u8]
        requires { n < self.now.sections.texts.count }
        ensures { result.now ≡ text_of self.now.bytes.now self.now.sections n }
    {
        let p = self.text_place(n);
        let from = p + 1;
        let e = from + place::byte_at(self.bytes, p);
        &self.bytes[from..e]
    }

    // Component i.
    pub fn component_at(&self, i: usize) -> ComponentRecord
        requires { i < self.now.sections.components.count }
        ensures { result ≡ component_at self.now.bytes.now self.now.sections i }
    {
        let at = self.sections.components.at + i * 4;
        ComponentRecord {
            parent: place::byte_at(self.bytes, at),
            name: place::byte_at(self.bytes, at + 1),
            range: place::byte_at(self.bytes, at + 2),
            flag: place::byte_at(self.bytes, at + 3),
        }
    }

    // Property i.
    pub fn property_at(&self, i: usize) -> PropertyRecord
        requires { i < self.now.sections.properties.count }
        ensures { result ≡ property_at self.now.bytes.now self.now.sections i }
    {
        let at = self.sections.properties.at + i * 6;
        PropertyRecord {
            component: place::byte_at(self.bytes, at),
            name: place::byte_at(self.bytes, at + 1),
            range: place::byte_at(self.bytes, at + 2),
            text: place::byte_at(self.bytes, at + 3),
            collation: place::byte_at(self.bytes, at + 4),
            flag: place::byte_at(self.bytes, at + 5),
        }
    }

    // Parameter i.
    pub fn parameter_at(&self, i: usize) -> ParameterRecord
        requires { i < self.now.sections.parameters.count }
        ensures { result ≡ parameter_at self.now.bytes.now self.now.sections i }
    {
        let at = self.sections.parameters.at + i * 5;
        ParameterRecord {
            property: place::byte_at(self.bytes, at),
            name: place::byte_at(self.bytes, at + 1),
            text: place::byte_at(self.bytes, at + 2),
            collation: place::byte_at(self.bytes, at + 3),
            flag: place::byte_at(self.bytes, at + 4),
        }
    }
}
