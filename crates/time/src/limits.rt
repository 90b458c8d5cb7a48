// The limits of a second: what UTC second a clock is, and whether it is within the limits.
// The offset comes as a shift, so that no number is negative.
ghost use Rattle.std.specs.Prelude.{◌≡◌, ◌≤◌};
ghost use Rattle.time.specs.Limits.{since, utc_second};

use crate::date_time::Kind;

pub const EPOCH: u64 = 62167219200;

pub const LAST_SECOND: u64 = 4102444799;

// The seconds since a start, where they are within the limits.
fn since(start: u64, clock: u64) -> Option<u64>
    ensures { result ≡ since start clock }
{
    if clock < start {
        return None;
    }
    let t = clock - start;
    if LAST_SECOND < t {
        return None;
    }
    Some(t)
}

// The UTC second of a clock, the offset being shift - 50400. The shift stays a number: docs/TRACE.md names this function.
pub fn utc_second(kind: Kind, clock: u64, shift: u64) -> Option<u64>
    requires { shift ≤ 100800 }
    ensures { result ≡ utc_second kind clock shift }
{
    match kind {
        Kind::Utc => since(EPOCH, clock),
        Kind::Floating | Kind::Date => since(EPOCH - 50400 + shift, clock),
    }
}
