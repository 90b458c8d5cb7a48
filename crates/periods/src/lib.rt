// Periods and busy types: what reading gives, and what tables and reports are made of.
// Nothing here knows how either is written in a calendar.
#![tactic(auto)]

ghost use Rattle.std.specs.Prelude.{◌≡◌};
ghost use Rattle.periods.specs.BusyTypes.{report_place, is_busy};

// From its start up to, but not including, its end.
#[derive(Clone, Copy)]
pub struct Period {
    pub start: u64,
    pub end: u64,
}

// The busy types, and free.
#[derive(Clone, Copy, PartialEq, Eq)]
pub enum BusyType {
    Free,
    Busy,
    Tentative,
    Unavailable,
}

impl BusyType {
    // Free time is no busy time.
    #[tactic(auto, unfolding(crate::specs::BusyTypes::is_busy))]
    pub fn is_busy(self) -> bool
        ensures { result ≡ is_busy self }
    {
        !matches!(self, BusyType::Free)
    }
}

// How many periods there are of each type that a report lists.
#[derive(Clone, Copy)]
pub struct Counts {
    pub busy: usize,
    pub tentative: usize,
    pub unavailable: usize,
}

// The place of a busy type in a report; free time comes behind them.
// 3 for free, and no Option: docs/TRACE.md names the function and its definition, and rows of events keep the number.
#[tactic(auto, unfolding(crate::specs::BusyTypes::report_place))]
pub fn report_place(b: BusyType) -> usize
    ensures { result ≡ report_place b }
{
    match b {
        BusyType::Busy => 0,
        BusyType::Tentative => 1,
        BusyType::Unavailable => 2,
        BusyType::Free => 3,
    }
}
