// The stages that both calls have, each against its rows of the refusal table.
// The signed offset is turned into an unsigned number here, and nowhere below.
#![tactic(auto)]

ghost use Rattle.std.specs.Prelude.{◌≡◌};
ghost use Rattle.refusals.specs.Offsets.{offset_read};
ghost use Rattle.refusals.specs.Stages.{size_fault};

use calendar::Refusal;

// Refusal 1.
pub fn read_offset(offset: i64) -> Option<u64>
    ensures { result ≡ offset_read offset }
{
    if offset < -50400 {
        return None;
    }
    if 50400 < offset {
        return None;
    }
    Some((offset + 50400) as u64)
}

// Refusals 2 and 3.
pub fn check_sizes(cal: &[u8], work: &[u8]) -> Result<(), Refusal>
    ensures { result ≡ size_fault cal.now work.now }
{
    if 65536 < cal.len() {
        return Err(Refusal { number: 2, line: 0 });
    }
    if work.len() < cal.len() {
        return Err(Refusal { number: 3, line: 0 });
    }
    Ok(())
}
