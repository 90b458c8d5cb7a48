// What a line says, by the component that it stands directly in.
// Which properties are read, and in which component, is decided here alone.
#![tactic(auto)]

ghost use Rattle.std.specs.Prelude.{◌≡◌, true, ◌||◌, [], ◌∷◌, length, Some};
ghost use Rattle.ascii.specs.Words.{ascii};
ghost use Rattle.line.specs.Grammar.{ContentLine};
ghost use Rattle.line.specs.Reading.{name_of, value_of, line_of, parameter_of, has_parameter, has_twice, has_list};
ghost use Rattle.values.specs.Times.{form_of, time_of, ContextGood};
ghost use Rattle.property.specs.Properties.{property_of, time_in, time_fact, unless_zoned, unless_ranged, exceptions_by, status_named};
ghost use Rattle.property.specs.Facts.{Fact, reading_of, time_reading};
ghost use Rattle.property.specs.Properties.{busy_named, busy_of, type_value, value_as, before_items, property_value_of, gives_periods};

use line::split;
use periods::BusyType;
use time::duration;
use time::duration::Duration;
use values::rule::{Rule, ValueError};
use values::times::{Context, Form, Time};
use values::{period, rule, times};

// The component that a line stands directly in.
#[derive(Clone, Copy)]
pub enum Scope {
    Event,
    FreeBusy,
    Other,
}

// The properties that are read, each directly in the component that the rules name.
#[derive(Clone, Copy)]
pub enum Property {
    Start,
    End,
    Duration,
    Rule,
    Status,
    Transparency,
    Uid,
    RecurrenceId,
    Exceptions,
    Periods,
    // Read nowhere, but refused directly in a VEVENT.
    Unsupported,
}

#[derive(Clone, Copy)]
pub enum Status {
    Cancelled,
    Tentative,
    Other,
}

// What a line says. Nothing is a case of it: callers match it flat, and Result<Option<..>> would nest each of their matches once more.
#[derive(Clone, Copy)]
pub enum PropertyValue {
    // No rule reads it.
    Nothing,
    Start(Time),
    End(Time),
    Lasts(Duration),
    Repeats(Rule),
    HasStatus(Status),
    // Is TRANSP the word TRANSPARENT?
    Transparent(bool),
    // UID: its bytes are read in place.
    Uid,
    RecurrenceId(Time),
    // EXDATE: its times, of this form, are read in place.
    HasExceptions(Form),
    // FREEBUSY: its periods are read in place.
    HasPeriods(BusyType),
}

// In a VEVENT, the words of five bytes. A TryFrom<&[u8]> would not do: what a name is depends on the component.
fn event_of_five(name: &[u8]) -> Option<Property>
    requires { length name.now ≡ 5 }
    ensures { result ≡ property_of Scope.Event name.now }
{
    if ascii::same_name(name, b"DTEND") {
        return Some(Property::End);
    }
    if ascii::same_name(name, b"RRULE") {
        return Some(Property::Rule);
    }
    ascii::same_name(name, b"RDATE").then_some(Property::Unsupported)
}

// Those of six bytes.
fn event_of_six(name: &[u8]) -> Option<Property>
    requires { length name.now ≡ 6 }
    ensures { result ≡ property_of Scope.Event name.now }
{
    if ascii::same_name(name, b"STATUS") {
        return Some(Property::Status);
    }
    if ascii::same_name(name, b"TRANSP") {
        return Some(Property::Transparency);
    }
    if ascii::same_name(name, b"EXDATE") {
        return Some(Property::Exceptions);
    }
    ascii::same_name(name, b"EXRULE").then_some(Property::Unsupported)
}

// In a VEVENT: only the words as long as the name are tried, and most names are as long as none.
fn event_property(name: &[u8]) -> Option<Property>
    ensures { result ≡ property_of Scope.Event name.now }
{
    match name.len() {
        3 => ascii::same_name(name, b"UID").then_some(Property::Uid),
        5 => event_of_five(name),
        6 => event_of_six(name),
        7 => ascii::same_name(name, b"DTSTART").then_some(Property::Start),
        8 => ascii::same_name(name, b"DURATION").then_some(Property::Duration),
        13 => ascii::same_name(name, b"RECURRENCE-ID").then_some(Property::RecurrenceId),
        _ => None,
    }
}

// In a VFREEBUSY, the same way.
fn free_busy_property(name: &[u8]) -> Option<Property>
    ensures { result ≡ property_of Scope.FreeBusy name.now }
{
    match name.len() {
        5 => ascii::same_name(name, b"DTEND").then_some(Property::End),
        7 => ascii::same_name(name, b"DTSTART").then_some(Property::Start),
        8 => ascii::same_name(name, b"FREEBUSY").then_some(Property::Periods),
        _ => None,
    }
}

// The property that a name is, directly in the component.
fn property_of(scope: Scope, name: &[u8]) -> Option<Property>
    ensures { result ≡ property_of scope name.now }
{
    match scope {
        Scope::Event => event_property(name),
        Scope::FreeBusy => free_busy_property(name),
        Scope::Other => None,
    }
}

// In VFREEBUSY a time is UTC.
fn time_in(scope: Scope, r: Option<Time>) -> Option<Time>
    ensures { result ≡ time_in scope r }
{
    match scope {
        Scope::Event => r,
        Scope::FreeBusy => times::utc_only(r),
        Scope::Other => r,
    }
}

// A line with its value; where it is plain, it has no parameter at all, and none is looked for.
#[derive(Clone, Copy)]
struct Line<'a> {
    text: &'a [u8],
    value: &'a [u8],
    plain: bool,
    ghost value_is: { value.now ≡ value_of text.now },
    ghost no_parameters: { plain ≡ true → (line_of text.now).parameters ≡ [] },
}

impl<'a> Line<'a> {
    // The line whose name is n bytes long: behind its name, where it is plain, its value is.
    fn new(text: &'a [u8], n: usize) -> Line<'a>
        requires { n ≡ length (name_of text.now) }
        ensures { result.text.now ≡ text.now }
    {
        let plain = line::read::is_plain(text, n);
        let value = if plain {
            &text[n + 1..]
        } else {
            line::read::value(text)
        };
        Line { text, value, plain }
    }

    fn has(self, name: &[u8]) -> bool
        ensures { result ≡ has_parameter name.now (line_of self.entry.text.now) }
    {
        if self.plain {
            return false;
        }
        line::read::has_parameter(self.text, name)
    }

    fn is_zoned(self) -> bool
        ensures { result ≡ has_parameter (ascii "TZID") (line_of self.entry.text.now) }
    {
        self.has(b"TZID")
    }

    // The form that it asks for.
    fn form(self) -> Form
        ensures { result ≡ form_of (line_of self.entry.text.now) }
    {
        if self.plain {
            return Form::DateTime;
        }
        times::form_of(self.text)
    }

    // The time that it gives.
    fn time(self, c: Context) -> Option<Time>
        requires { ContextGood c }
        ensures { result ≡ time_of c (line_of self.entry.text.now) }
    {
        times::read_time(c, self.form(), self.value)
    }
}

// The time of DTSTART or DTEND. With TZID the line is unsupported, whatever else is on it.
fn time_value(c: Context, scope: Scope, line: Line) -> Result<Time, ValueError>
    requires { ContextGood c }
    ensures { (f : Time → Fact) → time_reading f result ≡ unless_zoned (line_of line.entry.text.now) (time_fact f (time_in scope (time_of c (line_of line.entry.text.now)))) }
{
    if line.is_zoned() {
        return Err(ValueError::Unsupported);
    }
    time_in(scope, line.time(c)).ok_or(ValueError::Bad)
}

// That of RECURRENCE-ID. With RANGE or TZID the line is unsupported, whatever else is on it.
fn recurrence_value(c: Context, line: Line) -> Result<Time, ValueError>
    requires { ContextGood c }
    ensures { (f : Time → Fact) → time_reading f result ≡ unless_ranged (line_of line.entry.text.now) (unless_zoned (line_of line.entry.text.now) (time_fact f (time_of c (line_of line.entry.text.now)))) }
{
    if line.has(b"RANGE") {
        return Err(ValueError::Unsupported);
    }
    if line.is_zoned() {
        return Err(ValueError::Unsupported);
    }
    line.time(c).ok_or(ValueError::Bad)
}

// EXDATE with times of the form.
fn exceptions_by(form: Form) -> Result<PropertyValue, ValueError>
    ensures { reading_of result ≡ exceptions_by form }
{
    match form {
        Form::Wrong => Err(ValueError::Bad),
        f => Ok(PropertyValue::HasExceptions(f)),
    }
}

// EXDATE: the form of its times, and they are left to the caller. With TZID the line is unsupported.
fn exceptions_value(line: Line) -> Result<PropertyValue, ValueError>
    ensures { (c : Context) (s : Scope) → reading_of result ≡ value_as (Some Property.Exceptions) c s (line_of line.entry.text.now) }
{
    if line.is_zoned() {
        return Err(ValueError::Unsupported);
    }
    exceptions_by(line.form())
}

// The status that a word names, ASCII case disregarded. No From<&[u8]>, and busy_named neither: BusyType is of crate periods, which knows no words.
fn status_named(v: &[u8]) -> Status
    ensures { result ≡ status_named v.now }
{
    if ascii::same_name(v, b"CANCELLED") {
        return Status::Cancelled;
    }
    if ascii::same_name(v, b"TENTATIVE") {
        return Status::Tentative;
    }
    Status::Other
}

// The busy type that a word names; any other word is BUSY.
fn busy_named(w: &[u8]) -> BusyType
    ensures { result ≡ busy_named w.now }
{
    if ascii::same_name(w, b"FREE") {
        return BusyType::Free;
    }
    if ascii::same_name(w, b"BUSY-TENTATIVE") {
        return BusyType::Tentative;
    }
    if ascii::same_name(w, b"BUSY-UNAVAILABLE") {
        return BusyType::Unavailable;
    }
    BusyType::Busy
}

// The busy type of a line, by its FBTYPE.
fn busy_of(line: &[u8]) -> BusyType
    ensures { result ≡ busy_of (line_of line.now) }
{
    busy_named(line::read::first_value(line, b"FBTYPE"))
}

// Is FBTYPE on the line twice, or a list?
fn type_is_bad(line: &[u8]) -> bool
    ensures { result ≡ (has_twice (ascii "FBTYPE") (line_of line.now) || has_list (ascii "FBTYPE") (line_of line.now)) }
{
    let u = line::read::usage_of(line, b"FBTYPE");
    (1 < u.times) | u.listed
}

// The type of a line whose one parameter is p.
fn type_by(p: &[u8]) -> Result<PropertyValue, ValueError>
    ensures { (x : ContentLine) → x.parameters ≡ parameter_of p.now ∷ [] → reading_of result ≡ type_value x }
{
    if !line::read::is_named(p, b"FBTYPE") {
        return Ok(PropertyValue::HasPeriods(BusyType::Busy));
    }
    if 1 < line::read::value_count(p) {
        return Err(ValueError::Bad);
    }
    Ok(PropertyValue::HasPeriods(busy_named(line::read::parameter_value(p, 0))))
}

// The type of a line, whatever its parameters are.
fn type_among(line: &[u8]) -> Result<PropertyValue, ValueError>
    ensures { reading_of result ≡ type_value (line_of line.now) }
{
    if type_is_bad(line) {
        return Err(ValueError::Bad);
    }
    Ok(PropertyValue::HasPeriods(busy_of(line)))
}

// FREEBUSY: its type, and the periods are left to the caller. Most lines have one parameter, and then one look at it is enough.
fn type_value(line: Line) -> Result<PropertyValue, ValueError>
    ensures { reading_of result ≡ type_value (line_of line.entry.text.now) }
{
    if line.plain {
        return Ok(PropertyValue::HasPeriods(BusyType::Busy));
    }
    let h = line::read::head(line.text);
    let at = split::find(h, 0, 59, true);
    if at < h.len() {
        let from = at + 1;
        let e = split::find(h, from, 59, true);
        if h.len() <= e {
            return type_by(&h[from..e]);
        }
    }
    type_among(line.text)
}

// What a line says as the property; the items of a list are left to the caller.
// There is no table of readers, since each answers its own type.
fn value_as(
    property: Property,
    c: Context,
    scope: Scope,
    line: Line,
) -> Result<PropertyValue, ValueError>
    requires { ContextGood c }
    ensures { reading_of result ≡ value_as (Some property) c scope (line_of line.entry.text.now) }
{
    match property {
        Property::Start => time_value(c, scope, line).map(PropertyValue::Start),
        Property::End => time_value(c, scope, line).map(PropertyValue::End),
        Property::Duration => duration::read_duration(line.value)
            .map(PropertyValue::Lasts)
            .ok_or(ValueError::Bad),
        Property::Rule => rule::rule_of(c, line.value).map(PropertyValue::Repeats),
        Property::Status => Ok(PropertyValue::HasStatus(status_named(line.value))),
        Property::Transparency => Ok(PropertyValue::Transparent(ascii::same_name(
            line.value,
            b"TRANSPARENT",
        ))),
        Property::Uid => Ok(PropertyValue::Uid),
        Property::RecurrenceId => recurrence_value(c, line).map(PropertyValue::RecurrenceId),
        Property::Exceptions => exceptions_value(line),
        Property::Periods => type_value(line),
        Property::Unsupported => Err(ValueError::Unsupported),
    }
}

// What a line, whose name is n bytes long, says directly in the component; the items of a list are left to the caller.
// Where no rule reads it, its value is not looked for.
pub fn property_value(
    c: Context,
    scope: Scope,
    line: &[u8],
    n: usize,
) -> Result<PropertyValue, ValueError>
    requires context_good { ContextGood c }
    requires n_value { n ≡ length (name_of line.now) }
    ensures { reading_of result ≡ before_items c scope (line_of line.now) }
{
    let Some(property) = property_of(scope, &line[..n]) else {
        return Ok(PropertyValue::Nothing);
    };
    value_as(property, c, scope, Line::new(line, n))
}

// Does the line, whose name is n bytes long, give periods directly in a VFREEBUSY?
pub fn gives_periods(line: &[u8], n: usize) -> bool
    requires { n ≡ length (name_of line.now) }
    ensures { (c : Context) → result ≡ gives_periods (property_value_of c Scope.FreeBusy (line_of line.now)) }
{
    if !ascii::same_name(&line[..n], b"FREEBUSY") {
        return false;
    }
    if type_is_bad(line) {
        return false;
    }
    period::all_periods(line::read::value(line))
}
