// The refusal that a calendar earns, by what was found of its structure, its values and its rules.
// The first is told: structure first, then values, then rules.
ghost use Rattle.std.specs.Prelude.{◌≡◌, [], Err, Some};
ghost use Rattle.calendar.specs.Checks.{rule_else};
ghost use Rattle.calendar.specs.Meaning.{by_rules, by_values, fault_of, Meaning, structure_refusal};

use crate::{LineError, Refusal};
use nesting::StructureError;

// Refusals 6 and 7.
impl From<StructureError> for Refusal {
    ghost from_gives = { λ e r. Err r ≡ structure_refusal (Err e) };

    fn from(e: StructureError) -> Refusal {
        match e {
            StructureError::BadLine(line) => Refusal { number: 6, line },
            StructureError::BadNesting(line) => Refusal { number: 7, line },
        }
    }
}

// Refusals 8 and 9, whatever the rules find.
impl From<LineError> for Refusal {
    ghost from_gives = { λ e r. (m : Meaning) → Err r ≡ fault_of (by_values (Err e) m) };

    fn from(e: LineError) -> Refusal {
        match e {
            LineError::Unsupported(line) => Refusal { number: 8, line },
            LineError::Bad(line) => Refusal { number: 9, line },
        }
    }
}

// Refusals 6 and 7, by what reading the structure answered.
pub fn structure_fault(structure: Result<(), StructureError>) -> Result<(), Refusal>
    ensures { result ≡ structure_refusal structure }
{
    structure?;
    Ok(())
}

// The component of this line is broken: the first that is.
pub fn broken_else(before: Option<usize>, number: usize) -> Option<usize>
    ensures { result ≡ rule_else before (Some number) }
{
    before.or(Some(number))
}

// The refusal for what was found: a value goes before a rule.
pub fn fault_by(values: Result<(), LineError>, rules: Option<usize>) -> Result<(), Refusal>
    ensures { result ≡ fault_of (by_values values (by_rules rules [])) }
{
    values?;
    match rules {
        None => Ok(()),
        Some(line) => Err(Refusal { number: 10, line }),
    }
}
