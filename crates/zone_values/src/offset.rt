// The value of TZOFFSETFROM and TZOFFSETTO: a sign, hours, minutes and perhaps seconds.
// An offset is answered as 86,400 more than it, so that no number is negative.
ghost use Rattle.std.specs.Prelude.{◌≡◌, ◌≤◌, ◌<◌, length};
ghost use Rattle.zone_values.specs.Offset.{second_at, offset_size, signed, read_offset};

use time::date_time;

// The second of an offset: five bytes have none.
#[tactic(auto, unfolding(crate::specs::Offset::second_at))]
fn second_at(v: &[u8]) -> Option<u64>
    ensures { result ≡ second_at v.now }
{
    match v.len() {
        5 => Some(0),
        7 => date_time::pair_at(v, 5),
        _ => None,
    }
}

// How many seconds stand behind the sign.
#[tactic(auto, unfolding(crate::specs::Offset::offset_size))]
fn offset_size(v: &[u8]) -> Option<u64>
    requires { 5 ≤ length v.now }
    ensures { result ≡ offset_size v.now }
{
    date_time::time_of(
        date_time::pair_at(v, 1),
        date_time::pair_at(v, 3),
        second_at(v),
    )
}

// The offset of a size: behind UTC there is none of size 0.
#[tactic(auto, unfolding(crate::specs::Offset::signed))]
fn signed(sign: u8, size: u64) -> Option<u64>
    requires { size < 86400 }
    ensures { result ≡ signed sign size }
{
    if sign == 43 {
        return Some(86400 + size);
    }
    if (sign == 45) & (0 < size) {
        return Some(86400 - size);
    }
    None
}

// The offset that a value says.
#[tactic(auto, using(crate::proofs::OffsetLaws::size_small), unfolding(crate::specs::Offset::read_offset, crate::specs::Offset::signed_by))]
pub fn read_offset(v: &[u8]) -> Option<u64>
    ensures { result ≡ read_offset v.now }
{
    if v.len() < 5 {
        return None;
    }
    let size = offset_size(v)?;
    signed(v[0], size)
}
