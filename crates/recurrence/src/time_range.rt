// The time range test: is an instance of an event, or a block with both ends, in the range from a up to, but not including, b?
// One division finds the first instance that can be in a range; from there on each is tested, while they start before its end.
// The range is two numbers: only starts_before asks b ≤ last_second and only first_candidate a ≤ last_second, so a type of both would ask more of the others.
ghost use Rattle.std.specs.Prelude.{◌≡◌, ◌≤◌};
ghost use Rattle.time.specs.Limits.{last_second};
ghost use Rattle.seconds.specs.Seconds.{Ordered};
ghost use Rattle.events.specs.Sizes.{EventSmall};
ghost use Rattle.recurrence.specs.TimeRange.{overlaps, ends_after, instance_in, between_in};
ghost use Rattle.recurrence.specs.Candidates.{first_at, span_of, FirstCandidate, MoreCandidates};

use crate::instance;
use events::Event;

// What stands from s to t, against the range.
pub fn overlaps(a: u64, b: u64, s: u64, t: u64) -> bool
    ensures { result ≡ overlaps a b s t }
{
    if s == t {
        (a <= s) & (s < b)
    } else {
        (a < t) & (s < b)
    }
}

// A block with both ends is in the range also where it ends at the range's start.
pub fn between_in(a: u64, b: u64, s: u64, t: u64) -> bool
    ensures { result ≡ between_in a b s t }
{
    (a <= t) & (s < b)
}

// Does instance k end after a, or, of zero length, start at a or later?
fn ends_after(e: Event, a: u64, k: u64) -> bool
    requires event_small { EventSmall e }
    requires k_bound { k ≤ 100000 }
    ensures { result ≡ ends_after e a k }
{
    if instance::is_zero_length(e) {
        a <= instance::start_of(e, k)
    } else {
        a < instance::end_of(e, k)
    }
}

// Is instance k in range, where these starts are taken away?
pub fn instance_in(e: Event, gone: &[u32], a: u64, b: u64, k: u64) -> bool
    requires event_small { EventSmall e }
    requires ordered { Ordered gone.now }
    requires k_bound { k ≤ 100000 }
    ensures { result ≡ instance_in e gone.now a b k }
{
    instance::occurs(e, gone, k) & ends_after(e, a, k) & (instance::start_of(e, k) < b)
}

// The least k with a < s + span + k * d.
fn first_at(s: u64, d: u64, span: u64, a: u64) -> u64
    requires s_bound { s ≤ 10000000000 }
    requires le_d { 1 ≤ d }
    requires span_bound { span ≤ 10000000000 }
    requires a_bound { a ≤ 10000000000 }
    ensures { result ≡ first_at s d span a }
{
    let end = s + span;
    if a < end { 0 } else { (a - end) / d + 1 }
}

// The length, and one second where it is zero.
fn span_of(e: Event) -> u64
    requires { EventSmall e }
    ensures { result ≡ span_of e }
{
    if instance::is_zero_length(e) {
        1
    } else {
        instance::length_of(e)
    }
}

// The first instance that ends after a, by one division: none before it is in a range from a.
pub fn first_candidate(e: Event, a: u64) -> u64
    requires event_small { EventSmall e }
    requires a_le_last_second { a ≤ last_second }
    ensures { FirstCandidate e a result }
{
    first_at(e.start, instance::step_of(e), span_of(e), a)
}

// Is instance k the rule's, and does it start before b? Where not, none from k on is in a range up to b.
pub fn starts_before(e: Event, b: u64, k: u64) -> bool
    requires event_small { EventSmall e }
    requires b_le_last_second { b ≤ last_second }
    requires k_bound { k ≤ 100000 }
    ensures { MoreCandidates e b k result }
{
    instance::is_instance(e, k) & (instance::start_of(e, k) < b)
}
