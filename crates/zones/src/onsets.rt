// The latest onset of a part at or before a clock.
// Years are walked downward from that of the clock, or the next one, and the first day that is reached ends the walk.
ghost use Rattle.std.specs.Prelude.{◌<◌};
ghost use Rattle.zones.specs.Parts.{GoodPart, clock_end};
ghost use Rattle.zones.specs.Onsets.{RuledOnset, IsOnset, LatestFound};

use crate::{Part, rule_days};

// The latest onset by the rule at or before w.
// Both years between which it can lie are told by a division, each one too wide at most.
fn latest_by_rule(p: Part, w: u64) -> Option<u64>
    requires good_part { GoodPart p }
    requires w_lt_clock_end { w < clock_end }
    ensures { LatestFound (RuledOnset p) w result }
{
    let day = p.start / 86400;
    let time = p.start % 86400;
    let least = 400 * day / 146097;
    let end = (400 * (w / 86400) + 396) / 146097 + 1;
    for y in (least..end).rev() {
        if let Some(d) = rule_days::rule_day(p, y) {
            let t = d * 86400 + time;
            if (day < d) & (t <= w) {
                return Some(t);
            }
        }
    }
    None
}

// The latest onset at or before w: by the rule, or else the part's DTSTART.
pub fn latest_onset(p: Part, w: u64) -> Option<u64>
    requires good_part { GoodPart p }
    requires w_lt_clock_end { w < clock_end }
    ensures { LatestFound (IsOnset p) w result }
{
    if w < p.start {
        return None;
    }
    if p.month == 0 {
        return Some(p.start);
    }
    let found = latest_by_rule(p, w);
    match found {
        Some(t) => Some(t),
        None => Some(p.start),
    }
}
