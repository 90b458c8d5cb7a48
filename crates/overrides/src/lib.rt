// Masters, overrides and exceptions: the tests that ask one event and numbers alone.
// Which VEVENT breaks a rule beside others is said in specs/.
#![tactic(auto)]

ghost use Rattle.std.specs.Prelude.{◌≡◌, ◌≤◌};
ghost use Rattle.time.specs.Limits.{last_second};
ghost use Rattle.values.specs.TimeLists.{same_kind};
ghost use Rattle.events.specs.Sizes.{EventSmall};
ghost use Rattle.overrides.specs.Instances.{names_instance};
ghost use Rattle.overrides.specs.Rules.{has_rule};

use events::{Event, Repeat};
use recurrence::instance;
use time::date_time::Kind;

// Are two times of one kind?
pub fn same_kind(a: Kind, b: Kind) -> bool
    ensures { result ≡ same_kind a b }
{
    a == b
}

// Is there an RRULE?
pub fn has_rule(r: Repeat) -> bool
    ensures { result ≡ has_rule r }
{
    !matches!(r, Repeat::Once)
}

// Does an instance start at s, whether it is taken away or not? One division finds the only number that it can have.
pub fn names_instance(e: Event, s: u64) -> bool
    requires event_small { EventSmall e }
    requires s_le_last_second { s ≤ last_second }
    ensures { result ≡ names_instance e s }
{
    if s < e.start {
        return false;
    }
    let k = (s - e.start) / instance::step_of(e);
    instance::is_instance(e, k) & (instance::start_of(e, k) == s)
}
