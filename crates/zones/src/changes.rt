// Until when the offset of a wall clock stays, so that clocks that follow each other need not ask every part again.
// An offset changes at an onset of any part, and where a gap ends, and nowhere else.
ghost use Rattle.std.specs.Prelude.{◌+◌, ◌≤◌, ◌<◌};
ghost use Rattle.time.specs.Days.{days_before_year};
ghost use Rattle.zones.specs.Parts.{GoodPart, clock_end};
ghost use Rattle.zones.specs.Onsets.{RuledOnset, IsOnset};
ghost use Rattle.zones.specs.PartRows.{parts_from, ZoneRows};
ghost use Rattle.zones.specs.Changes.{NoneUntil, QuietUntil, StaysAfter, SteadyUntil};

use crate::{Part, Steady, offsets, rows, rule_days};

// Where the clocks with a year of four digits end. A next onset that there is none of is this clock: what NoneUntil and QuietUntil promise up to it
// holds, and the least of all parts needs no case for none, as it would with an Option.
const CLOCK_END: u64 = 315569520000;

// A year that has begun by the day: that of the day, or one before it.
fn begun_year(day: u64) -> u64
    requires { day ≤ 4000000 }
    ensures { days_before_year result ≤ day }
{
    if day == 0 {
        return 0;
    }
    400 * (day - 1) / 146097
}

// The first day of the rule after w, at the onsets' time of day, or the end of the clocks.
fn next_by_rule(p: Part, w: u64) -> u64
    requires good_part { GoodPart p }
    requires w_lt_clock_end { w < clock_end }
    ensures { NoneUntil (RuledOnset p) w result }
{
    let time = p.start % 86400;
    for y in begun_year(w / 86400)..10000 {
        if let Some(d) = rule_days::rule_day(p, y) {
            let t = d * 86400 + time;
            if w < t {
                return t;
            }
        }
    }
    CLOCK_END
}

// The next onset of a part after w, or the end of the clocks.
fn next_onset(p: Part, w: u64) -> u64
    requires good_part { GoodPart p }
    requires w_lt_clock_end { w < clock_end }
    ensures { NoneUntil (IsOnset p) w result }
{
    if w < p.start {
        return p.start;
    }
    if p.month == 0 {
        return CLOCK_END;
    }
    next_by_rule(p, w)
}

// The next onset of any part after w, or the end of the clocks.
fn next_change(parts: &[u64], first: usize, n: usize, w: u64) -> u64
    requires zone_rows { ZoneRows parts.now first n }
    requires w_lt_clock_end { w < clock_end }
    ensures { QuietUntil (parts_from parts.now first) n w result }
{
    let mut least = CLOCK_END;
    for i in 0..n {
        let t = next_onset(rows::part_at(parts, first + i), w);
        if t < least {
            least = t;
        }
    }
    least
}

// The offset at w after the onset t of a part, and how long it stays if the next onset is not before `next`.
fn steady_after(p: Part, t: u64, w: u64, next: u64) -> Steady
    requires good_part { GoodPart p }
    requires t_le_w { t ≤ w }
    requires w_lt_next { w < next }
    requires next_le_clock_end { next ≤ clock_end }
    ensures { StaysAfter p t w next result }
{
    if w - t + p.from < p.to {
        if t + p.to < next + p.from {
            return Steady {
                offset: p.from,
                until: t + p.to - p.from,
            };
        }
        return Steady {
            offset: p.from,
            until: next,
        };
    }
    Steady {
        offset: p.to,
        until: next,
    }
}

// The offset of the wall clock w, and until when it stays.
pub fn steady(parts: &[u64], first: usize, n: usize, w: u64) -> Steady
    requires zone_rows { ZoneRows parts.now first n }
    requires w_lt_clock_end { w < clock_end }
    ensures { SteadyUntil (parts_from parts.now first) n w result }
{
    let next = next_change(parts, first, n, w);
    if let Some(g) = offsets::find_governing(parts, first, n, w) {
        let p = rows::part_at(parts, first + g.part);
        return steady_after(p, g.clock, w, next);
    }
    let opening = offsets::find_opening(parts, first, n);
    let p = rows::part_at(parts, first + opening);
    Steady {
        offset: p.from,
        until: next,
    }
}
