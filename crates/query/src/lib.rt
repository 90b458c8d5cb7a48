// The query, read in place: its sections, and the records in them.
// Each function equals one definition of specs/.
#![tactic(auto)]

ghost use Rattle.query.specs.Fits.{Fits};

pub mod fields;
pub mod place;

// A section: how many records it has, and where they begin.
#[derive(Clone, Copy)]
pub struct Section {
    pub count: usize,
    pub at: usize,
}

// The five sections, and where the last one ends.
#[derive(Clone, Copy)]
pub struct Sections {
    pub ranges: Section,
    pub texts: Section,
    pub components: Section,
    pub properties: Section,
    pub parameters: Section,
    pub end: usize,
}

// A query as its readers take it: its bytes, and its sections, which lie inside them.
#[derive(Clone, Copy)]
pub struct Query<'a> {
    pub bytes: &'a [u8],
    pub sections: Sections,
    pub ghost fits: { Fits bytes.now sections },
}

// The records below keep each number as it stands, flags and 0 for none too:
// `query_check` asks after whether it is one that may stand there.

// A component record.
#[derive(Clone, Copy)]
pub struct ComponentRecord {
    pub parent: usize,
    pub name: usize,
    pub range: usize,
    pub flag: usize,
}

// A property record.
#[derive(Clone, Copy)]
pub struct PropertyRecord {
    pub component: usize,
    pub name: usize,
    pub range: usize,
    pub text: usize,
    pub collation: usize,
    pub flag: usize,
}

// A parameter record.
#[derive(Clone, Copy)]
pub struct ParameterRecord {
    pub property: usize,
    pub name: usize,
    pub text: usize,
    pub collation: usize,
    pub flag: usize,
}
