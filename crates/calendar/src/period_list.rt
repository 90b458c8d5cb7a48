// From period to period of a FREEBUSY value, in place.
// A period that cannot be read is passed over; refusal 9 was asked before.
ghost use Rattle.std.specs.Prelude.{◌≡◌};
ghost use Rattle.calendar.specs.Periods.{behind, PeriodAt};

use line::split;
use periods::Period;
use values::period;

// The place behind the separator at a place; the end, where there is none.
fn place_behind(v: &[u8], at: usize) -> usize
    ensures { result ≡ behind v.now at }
{
    if at < v.len() { at + 1 } else { at }
}

// The first period from a place on; what is no period is passed over.
pub fn next_period(v: &[u8], from: usize) -> Option<(Period, usize)>
    ensures { PeriodAt v.now from result }
{
    let mut at = from;
    // A `while`: the place behind the period is answered with it, and `split` tells no places.
    while at < v.len() {
        let e = split::find(v, at, 44, false);
        let next = place_behind(v, e);
        match period::read_period(&v[at..e]) {
            Some(p) => return Some((p, next)),
            None => {
                at = next;
            }
        }
    }
    None
}
