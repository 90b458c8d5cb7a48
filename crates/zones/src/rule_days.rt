// The day that a part's yearly rule names: the n-th of a weekday in a month, counted from either end.
// The weekday of a day and the weeks between are one remainder and one product: no day is walked over.
ghost use Rattle.std.specs.Prelude.{◌≤◌};
ghost use Rattle.zones.specs.Parts.{GoodPart, Exactly};
ghost use Rattle.zones.specs.RuleDays.{NthWeekday, RuleDay};

use crate::Part;
use time::days;

// Of the n days from the day s on, that of the weekday with so many others of it before it, or behind it.
fn nth_weekday(s: u64, n: u64, weekday: u64, others: u64, back: bool) -> Option<u64>
    requires s_bound { s ≤ 4000000 }
    requires n_bound { n ≤ 31 }
    requires weekday_bound { weekday ≤ 6 }
    requires others_bound { others ≤ 4 }
    ensures { Exactly (NthWeekday s n weekday others back) result }
{
    if back {
        let off = ((s + n + 5) % 7 + 7 - weekday) % 7 + 7 * others;
        if off < n {
            return Some(s + n - 1 - off);
        }
        return None;
    }
    let off = (weekday + 7 - (s + 6) % 7) % 7 + 7 * others;
    if off < n {
        return Some(s + off);
    }
    None
}

// The day of the part's rule in the year y, where that year has it.
pub fn rule_day(p: Part, y: u64) -> Option<u64>
    requires good_part { GoodPart p }
    requires y_bound { y ≤ 9999 }
    ensures { Exactly (RuleDay p y) result }
{
    let s = days::days_before_year(y) + days::days_before_month(y, p.month);
    nth_weekday(s, days::month_days(y, p.month), p.weekday, p.others, p.back)
}
