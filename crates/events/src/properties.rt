// What the lines of a component say together, one line after another.
// Of a property that stands twice the last is kept, and that it was repeated.
ghost use Rattle.std.specs.Prelude.{◌≡◌};
ghost use Rattle.property.specs.Facts.{SpanFact, BusyFact, Fact, Reading};
ghost use Rattle.events.specs.ComponentProperties.{no_properties, with_span, with_busy, with_property};

use crate::{BusyProperties, ComponentProperties, SpanProperties};
use property::Status;
use time::duration::Duration;
use values::rule::Rule;
use values::times::Time;

pub fn no_properties() -> ComponentProperties
    ensures { result ≡ no_properties }
{
    ComponentProperties {
        repeated: false,
        span: SpanProperties {
            start: None,
            end: None,
            lasts: None,
        },
        repeats: None,
        busy: BusyProperties {
            status: None,
            transparency: None,
        },
    }
}

// A line more of when it takes place; was its property there before?
fn with_span(g: ComponentProperties, again: bool, span: SpanProperties) -> ComponentProperties
    ensures { result ≡ with_span g again span }
{
    ComponentProperties {
        repeated: g.repeated | again,
        span,
        ..g
    }
}

// A line more of what it counts for.
fn with_busy(g: ComponentProperties, again: bool, busy: BusyProperties) -> ComponentProperties
    ensures { result ≡ with_busy g again busy }
{
    ComponentProperties {
        repeated: g.repeated | again,
        busy,
        ..g
    }
}

pub fn with_start(g: ComponentProperties, t: Time) -> ComponentProperties
    ensures { result ≡ with_property g (Reading.of (Fact.span (SpanFact.start t))) }
{
    let span = SpanProperties {
        start: Some(t),
        ..g.span
    };
    with_span(g, g.span.start.is_some(), span)
}

pub fn with_end(g: ComponentProperties, t: Time) -> ComponentProperties
    ensures { result ≡ with_property g (Reading.of (Fact.span (SpanFact.end t))) }
{
    let span = SpanProperties {
        end: Some(t),
        ..g.span
    };
    with_span(g, g.span.end.is_some(), span)
}

pub fn with_lasts(g: ComponentProperties, d: Duration) -> ComponentProperties
    ensures { result ≡ with_property g (Reading.of (Fact.span (SpanFact.lasts d))) }
{
    let span = SpanProperties {
        lasts: Some(d),
        ..g.span
    };
    with_span(g, g.span.lasts.is_some(), span)
}

pub fn with_repeats(g: ComponentProperties, x: Rule) -> ComponentProperties
    ensures { result ≡ with_property g (Reading.of (Fact.repeats x)) }
{
    ComponentProperties {
        repeated: g.repeated | g.repeats.is_some(),
        repeats: Some(x),
        ..g
    }
}

pub fn with_status(g: ComponentProperties, x: Status) -> ComponentProperties
    ensures { result ≡ with_property g (Reading.of (Fact.busy (BusyFact.status x))) }
{
    let busy = BusyProperties {
        status: Some(x),
        ..g.busy
    };
    with_busy(g, g.busy.status.is_some(), busy)
}

pub fn with_transparency(g: ComponentProperties, x: bool) -> ComponentProperties
    ensures { result ≡ with_property g (Reading.of (Fact.busy (BusyFact.transparent x))) }
{
    let busy = BusyProperties {
        transparency: Some(x),
        ..g.busy
    };
    with_busy(g, g.busy.transparency.is_some(), busy)
}
