// The fingerprints of UIDs in a column, a row each, and what is read from it: that no row before has the UID of a row.
ghost use Rattle.std.specs.Prelude.{◌≡◌, ◌%◌, ◌<◌, length};
ghost use Rattle.series.specs.VEventRows.{RowTied, Tied};
ghost use Rattle.series.specs.Prints.{print_of, PrintIs, Printed};

use crate::uids;
use structure::calendar::Calendar;
use values::given::Given;
use values::times::Context;

// The column of fingerprints, and the marks of its rows.
#[derive(Clone, Copy)]
pub struct Fingerprints<'a> {
    pub prints: &'a [u16],
    pub marks: &'a [u8],
}

fn print_of(u: &[u8]) -> u16
    ensures { result ≡ print_of u.now }
{
    if 1024 < u.len() {
        return fingerprints::fingerprint(&u[..1024]);
    }
    fingerprints::fingerprint(u)
}

// That of row k; 0 where it has none.
// A number and no Option: it goes into a column of numbers in fixed memory, as the kind comes from one (1 is an event).
fn row_print(cal: &Calendar, links: &[u32], k: usize, c: Context) -> u16
    requires { RowTied c cal.now.text.now cal.now.index.now cal.now.rows.now links.now k }
    ensures { PrintIs c cal.now.text.now cal.now.rows.now k result }
{
    if cal.kind_at(k) != 1 {
        return 0;
    }
    let link = identities::rows::link_at(links, k);
    let uid = link.uid;
    match uid {
        Given::None => 0,
        Given::One(n) => print_of(uids::uid_at(cal, n)),
        Given::Several => 0,
    }
}

// Where a fingerprint is noted.
fn note_place(print: u16) -> usize
    ensures value { result ≡ print % 1024 }
    ensures upper_bound { result < 1024 }
{
    (print % 1024) as usize
}

// Fills the column for the rows before row m. A row is marked where another fingerprint was noted at the same place before:
// most are not, and of these the column needs no search.
// Each column is lent for itself (fixed memory), and marks are numbers, as Printed reads them: no other crate calls this, so it may take no narrower type.
pub fn fill_prints(
    prints: &mut [u16],
    marks: &mut [u8],
    notes: &mut [u8],
    cal: &Calendar,
    links: &[u32],
    m: usize,
    c: Context,
)
    requires tied { Tied c cal.now.text.now cal.now.index.now cal.now.rows.now links.now m }
    requires prints_len { (length prints.old ≡ 320) × (length marks.old ≡ 256) × (length notes.old ≡ 1024) }
    ensures { Printed c cal.now.text.now cal.now.rows.now prints.new marks.new m }
{
    for k in 0..m {
        let print = row_print(cal, links, k, c);
        let place = note_place(print);
        prints[64 + k] = print;
        marks[k] = notes[place];
        notes[place] = 1;
    }
}
