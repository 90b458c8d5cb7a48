// What the lines of one part of a zone say together: how often each property was given, and then the numbers of the part.
// A part is broken unless it has each line that it needs once.
ghost use Rattle.std.specs.Prelude.{◌≡◌};
ghost use Rattle.zone_properties.specs.Parts.{nothing_given, with_value, part_of};

use crate::ZoneValue;
use values::given::Given;
use values::rule::ValueError;
use zone_values::zone_rule::ZoneRule;

// What was given so far.
#[derive(Clone, Copy)]
pub struct PartRead {
    pub start: Given<u64>,
    pub from: Given<u64>,
    pub to: Given<u64>,
    pub rule: Given<ZoneRule>,
}

// A part of a zone, and its rule where it has one.
#[derive(Clone, Copy)]
pub struct PartNumbers {
    pub start: u64,
    pub from: u64,
    pub to: u64,
    pub rule: Option<ZoneRule>,
}

// No line read.
#[tactic(auto, unfolding(crate::specs::Parts::nothing_given))]
pub fn nothing_given() -> PartRead
    ensures { result ≡ nothing_given }
{
    PartRead {
        start: Given::None,
        from: Given::None,
        to: Given::None,
        rule: Given::None,
    }
}

// One line more of the part, by what it says. A line that is not read or refused gives nothing.
#[tactic(auto, unfolding(crate::specs::Parts::with_value, crate::specs::Parts::with_said))]
pub fn with_value(p: PartRead, v: Result<Option<ZoneValue>, ValueError>) -> PartRead
    ensures { result ≡ with_value p v }
{
    let Ok(Some(value)) = v else {
        return p;
    };
    match value {
        ZoneValue::Tzid => p,
        ZoneValue::Onset(n) => PartRead {
            start: p.start.with(n),
            ..p
        },
        ZoneValue::From(n) => PartRead {
            from: p.from.with(n),
            ..p
        },
        ZoneValue::To(n) => PartRead {
            to: p.to.with(n),
            ..p
        },
        ZoneValue::Rule(r) => PartRead {
            rule: p.rule.with(r),
            ..p
        },
    }
}

// The part that was given, where each line that it needs was given once, and RRULE not twice.
#[tactic(auto, unfolding(crate::specs::Parts::part_of, crate::specs::Parts::by_rule, values::specs::Given::given_once))]
pub fn part_of(p: PartRead) -> Option<PartNumbers>
    ensures { result ≡ part_of p }
{
    let start = p.start.once()?;
    let from = p.from.once()?;
    let to = p.to.once()?;
    let rule = match p.rule {
        Given::None => None,
        Given::One(r) => Some(r),
        Given::Several => return None,
    };
    Some(PartNumbers {
        start,
        from,
        to,
        rule,
    })
}
