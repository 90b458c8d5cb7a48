// The parts of zones as rows of eight numbers in lent memory: row i from place 8 * i on.
// What is put to a row is read from it again, and the other rows are left as they were.
// Memory is fixed and lent as numbers (no heap), so parts stand in rows of numbers; the contracts on a zone (ZoneRows) name its rows by `parts`, `first` and `n`.
ghost use Rattle.std.specs.Prelude.{◌≡◌, ◌+◌, ◌*◌, ◌≤◌, length};
ghost use Rattle.zones.specs.PartRows.{part_row, part_at, PartPut};

use crate::Part;

// Row i becomes that of the part.
pub fn put_part(parts: &mut [u64], i: usize, p: Part)
    requires { 8 * i + 8 ≤ length parts.old }
    ensures { PartPut parts.old i (part_row p) parts.new }
{
    let row = [
        p.start,
        p.from,
        p.to,
        p.month,
        p.others,
        p.back as u64,
        p.weekday,
        0,
    ];
    parts[8 * i..8 * i + 8].copy_from_slice(&row);
}

// The part of row i.
#[tactic(auto, unfolding(crate::specs::PartRows::part_at))]
pub fn part_at(parts: &[u64], i: usize) -> Part
    requires { 8 * i + 8 ≤ length parts.now }
    ensures { result ≡ part_at parts.now i }
{
    let at = 8 * i;
    Part {
        start: parts[at],
        from: parts[at + 1],
        to: parts[at + 2],
        month: parts[at + 3],
        others: parts[at + 4],
        back: parts[at + 5] == 1,
        weekday: parts[at + 6],
    }
}
