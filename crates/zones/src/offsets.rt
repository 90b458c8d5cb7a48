// The offset of a wall clock in a zone, and its UTC time. A zone is n rows of parts, from row `first` on.
// Every part is asked for its latest onset; only before all of them is the earliest one looked for.
ghost use Rattle.std.specs.Prelude.{◌≡◌, ◌<◌};
ghost use Rattle.zones.specs.Parts.{clock_end};
ghost use Rattle.zones.specs.PartRows.{parts_from, ZoneRows};
ghost use Rattle.zones.specs.Offsets.{GoverningFound, OpeningPart, IsOffset, utc_clock};

use crate::{onsets, rows};

// The onset that governs a clock: which part of the zone has it, and when it is.
#[derive(Clone, Copy)]
pub struct Governing {
    pub part: usize,
    pub clock: u64,
}

// The governing onset, if there is one. An equal one of a later part takes its place.
pub fn find_governing(parts: &[u64], first: usize, n: usize, w: u64) -> Option<Governing>
    requires zone_rows { ZoneRows parts.now first n }
    requires w_lt_clock_end { w < clock_end }
    ensures { GoverningFound (parts_from parts.now first) n w result }
{
    let mut governing: Option<Governing> = None;
    for i in 0..n {
        let p = rows::part_at(parts, first + i);
        if let Some(t) = onsets::latest_onset(p, w) {
            if let Some(g) = governing {
                if t < g.clock {
                    continue;
                }
            }
            governing = Some(Governing { part: i, clock: t });
        }
    }
    governing
}

// The part with the earliest onset, of equal ones the last. A part's earliest is its DTSTART.
pub fn find_opening(parts: &[u64], first: usize, n: usize) -> usize
    requires { ZoneRows parts.now first n }
    ensures { OpeningPart (parts_from parts.now first) n result }
{
    let mut best = 0;
    let mut least = parts[8 * first];
    for i in 1..n {
        let t = parts[8 * (first + i)];
        if t <= least {
            best = i;
            least = t;
        }
    }
    best
}

// The offset of the wall clock w, with a day added as those of the parts have it.
pub fn offset_at(parts: &[u64], first: usize, n: usize, w: u64) -> u64
    requires zone_rows { ZoneRows parts.now first n }
    requires w_lt_clock_end { w < clock_end }
    ensures { IsOffset (parts_from parts.now first) n w result }
{
    if let Some(g) = find_governing(parts, first, n, w) {
        let p = rows::part_at(parts, first + g.part);
        if w - g.clock + p.from < p.to {
            return p.from;
        }
        return p.to;
    }
    let opening = find_opening(parts, first, n);
    let p = rows::part_at(parts, first + opening);
    p.from
}

// The UTC time of the wall clock w, counted as clocks are. What would lie before year 0 is 0.
pub fn utc_clock(parts: &[u64], first: usize, n: usize, w: u64) -> u64
    requires zone_rows { ZoneRows parts.now first n }
    requires w_lt_clock_end { w < clock_end }
    ensures { result ≡ utc_clock (parts_from parts.now first) n w }
{
    let offset = offset_at(parts, first, n, w);
    if w + 86400 < offset {
        return 0;
    }
    w + 86400 - offset
}
