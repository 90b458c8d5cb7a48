// Recurrence instances of an event: when each starts, how long each is, and which there are.
// Starts go up by whole days; how many there are is the rule's limit alone.
// k is a plain number with a bound, and the starts that are gone a plain slice: a type of each would be taken apart at every step of the loops that count k.
ghost use Rattle.std.specs.Prelude.{◌≡◌, ◌≤◌};
ghost use Rattle.recurrence.specs.Instances.{utc_clock_of, step_of, start_of, repeats, is_instance, occurs, default_length, length_by, is_zero_length, end_of};
ghost use Rattle.events.specs.Sizes.{EventSmall};
ghost use Rattle.seconds.specs.Seconds.{Ordered};

use events::{Ending, Event, Repeat};
use time::date_time::Kind;
use time::duration;

// The seconds from one start to the next.
pub fn step_of(e: Event) -> u64
    requires { EventSmall e }
    ensures { result ≡ step_of e }
{
    e.days * e.interval * 86400
}

// The second at which instance k starts, k steps after the first.
pub fn start_of(e: Event, k: u64) -> u64
    requires event_small { EventSmall e }
    requires k_bound { k ≤ 100000 }
    ensures { start_of e k ≡ utc_clock_of result }
{
    e.start + k * step_of(e)
}

// A day for a DATE, nothing otherwise.
fn default_length(kind: Kind) -> u64
    ensures { result ≡ default_length kind }
{
    match kind {
        Kind::Utc => 0,
        Kind::Floating => 0,
        Kind::Date => 86400,
    }
}

// End minus start, or the duration, or the default.
pub fn length_of(e: Event) -> u64
    requires { EventSmall e }
    ensures { result ≡ length_by e e.ending }
{
    match e.ending {
        Ending::End(t) => t - e.start,
        Ending::Lasts(d) => duration::duration_seconds(d),
        Ending::None => default_length(e.kind),
    }
}

// Do its instances end where they start?
pub fn is_zero_length(e: Event) -> bool
    requires { EventSmall e }
    ensures { result ≡ is_zero_length e }
{
    length_of(e) == 0
}

// The second at which instance k ends, its length after its start.
pub fn end_of(e: Event, k: u64) -> u64
    requires event_small { EventSmall e }
    requires k_bound { k ≤ 100000 }
    ensures { end_of e k ≡ utc_clock_of result }
{
    start_of(e, k) + length_of(e)
}

// Does the rule have instance k, which starts at the second s?
fn repeats(rule: Repeat, s: u64, k: u64) -> bool
    ensures { result ≡ repeats rule (utc_clock_of s) k }
{
    match rule {
        Repeat::Once => k == 0,
        Repeat::Forever => true,
        Repeat::Count(n) => k < n,
        Repeat::Until(t) => s <= t,
    }
}

// Is there an instance k by the rule?
pub fn is_instance(e: Event, k: u64) -> bool
    requires event_small { EventSmall e }
    requires k_bound { k ≤ 100000 }
    ensures { result ≡ is_instance e k }
{
    repeats(e.repeat, start_of(e, k), k)
}

// Does instance k stand, where these starts are taken away?
pub fn occurs(e: Event, gone: &[u32], k: u64) -> bool
    requires event_small { EventSmall e }
    requires ordered { Ordered gone.now }
    requires k_bound { k ≤ 100000 }
    ensures { result ≡ occurs e gone.now k }
{
    is_instance(e, k) & !seconds::has(gone, start_of(e, k))
}
