// DURATION values: a fold over the bytes that keeps what was read before.
// Days and seconds are answered apart, and whether there was a time part.
// EventSmall stays in three contracts: an invariant of Reading would be that bound again, proved at each place that builds one.
ghost use Rattle.std.specs.Prelude.{◌≡◌, ◌≤◌};
ghost use Rattle.time.specs.Duration.{EventSmall, time_start, next_stage, weight_of, blank, with_digit, with_unit, step, finish, duration_text, duration_seconds, read_duration};

// What was read before.
#[derive(Clone, Copy)]
pub enum Stage {
    Start,
    Sign,
    Period,
    Weeks,
    Days,
    Time,
    Hours,
    Minutes,
    Seconds,
    Wrong,
}

// What one of a unit is, days and seconds: none of either for a mark.
#[derive(Clone, Copy)]
pub struct Weight(pub u64, pub u64);

// A text read so far: the digits and the number since the last letter, and the sums.
#[derive(Clone, Copy)]
pub struct Reading {
    pub stage: Stage,
    pub digits: u64,
    pub number: u64,
    pub days: u64,
    pub seconds: u64,
    pub timed: bool,
}

// Days and seconds of a duration, and whether it has a time part.
#[derive(Clone, Copy)]
pub struct Duration {
    pub days: u64,
    pub seconds: u64,
    pub timed: bool,
}

// A time begins with hours, minutes or seconds.
fn time_start(letter: u8) -> Stage
    ensures { result ≡ time_start letter }
{
    match letter {
        72 => Stage::Hours,
        77 => Stage::Minutes,
        83 => Stage::Seconds,
        _ => Stage::Wrong,
    }
}

// The grammar: what may follow what was read before.
fn next_stage(stage: Stage, letter: u8) -> Stage
    ensures { result ≡ next_stage stage letter }
{
    match stage {
        Stage::Start => match letter {
            43 => Stage::Sign,
            80 => Stage::Period,
            _ => Stage::Wrong,
        },
        Stage::Sign => match letter {
            80 => Stage::Period,
            _ => Stage::Wrong,
        },
        Stage::Period => match letter {
            87 => Stage::Weeks,
            68 => Stage::Days,
            84 => Stage::Time,
            _ => Stage::Wrong,
        },
        Stage::Weeks => Stage::Wrong,
        Stage::Days => match letter {
            84 => Stage::Time,
            _ => Stage::Wrong,
        },
        Stage::Time => time_start(letter),
        Stage::Hours => match letter {
            77 => Stage::Minutes,
            _ => Stage::Wrong,
        },
        Stage::Minutes => match letter {
            83 => Stage::Seconds,
            _ => Stage::Wrong,
        },
        Stage::Seconds => Stage::Wrong,
        Stage::Wrong => Stage::Wrong,
    }
}

// What one of the unit just read is.
fn weight_of(stage: Stage) -> Weight
    ensures { result ≡ weight_of stage }
{
    match stage {
        Stage::Start => Weight(0, 0),
        Stage::Sign => Weight(0, 0),
        Stage::Period => Weight(0, 0),
        Stage::Weeks => Weight(7, 0),
        Stage::Days => Weight(1, 0),
        Stage::Time => Weight(0, 0),
        Stage::Hours => Weight(0, 3600),
        Stage::Minutes => Weight(0, 60),
        Stage::Seconds => Weight(0, 1),
        Stage::Wrong => Weight(0, 0),
    }
}

fn blank(stage: Stage) -> Reading
    ensures { result ≡ blank stage }
{
    Reading {
        stage,
        digits: 0,
        number: 0,
        days: 0,
        seconds: 0,
        timed: false,
    }
}

// One digit more, of at most six.
fn with_digit(r: Reading, b: u8) -> Reading
    requires event_small { EventSmall r }
    requires le_b { (48 ≤ b) × (b ≤ 57) }
    ensures { result ≡ with_digit r b }
{
    if r.digits < 6 {
        return Reading {
            digits: r.digits + 1,
            number: r.number * 10 + (b as u64 - 48),
            ..r
        };
    }
    blank(Stage::Wrong)
}

// A letter: a unit after a number, a mark after none.
fn with_unit(r: Reading, letter: u8) -> Reading
    requires { EventSmall r }
    ensures { result ≡ with_unit r letter }
{
    let stage = r.stage;
    let digits = r.digits;
    let number = r.number;
    let next = next_stage(stage, letter);
    let one = weight_of(next);
    let days = one.0;
    let seconds = one.1;
    let size = days + seconds;
    if ((0 < size) & (0 < digits)) | ((size < 1) & (digits < 1)) {
        return Reading {
            stage: next,
            digits: 0,
            number: 0,
            days: r.days + number * days,
            seconds: r.seconds + number * seconds,
            timed: r.timed | (letter == 84),
        };
    }
    blank(Stage::Wrong)
}

// One byte more: a digit, or a letter in either case.
fn step(r: Reading, b: u8) -> Reading
    requires { EventSmall r }
    ensures { result ≡ step r b }
{
    match b {
        48..=57 => with_digit(r, b),
        65..=90 => with_unit(r, b),
        97..=122 => with_unit(r, b - 32),
        _ => with_unit(r, b),
    }
}

// At the end a unit was read last. A From for the answer would be the same three fields, away from the test.
fn finish(r: Reading) -> Option<Duration>
    ensures { result ≡ finish r }
{
    let stage = r.stage;
    let digits = r.digits;
    let one = weight_of(stage);
    let days = one.0;
    let seconds = one.1;
    if (0 < days + seconds) & (digits < 1) {
        return Some(Duration {
            days: r.days,
            seconds: r.seconds,
            timed: r.timed,
        });
    }
    None
}

// The text of a duration, whatever its length.
fn duration_text(s: &[u8]) -> Option<Duration>
    ensures { result ≡ duration_text s.now }
{
    let mut r = blank(Stage::Start);
    for &b in s {
        r = step(r, b);
    }
    finish(r)
}

// The seconds of a duration, a day being 86,400.
pub fn duration_seconds(d: Duration) -> u64
    requires { (d.days ≤ 100000000) × (d.seconds ≤ 100000000000) }
    ensures { result ≡ duration_seconds d }
{
    d.days * 86400 + d.seconds
}

// A DURATION within the limit.
pub fn read_duration(s: &[u8]) -> Option<Duration>
    ensures { result ≡ read_duration s.now }
{
    let d = duration_text(s)?;
    if duration_seconds(d) <= 315360000 {
        Some(d)
    } else {
        None
    }
}
