// Days of the Gregorian calendar, by direct arithmetic.
// There is no loop and no table, and a month that does not exist has no days.
ghost use Rattle.std.specs.Prelude.{◌≡◌, ◌≤◌};
ghost use Rattle.time.specs.Days.{is_leap, month_days, days_before_year, before_in, days_before_month};

// Of the hundreds those that 16 divides are every fourth.
pub fn is_leap(y: u64) -> bool
    ensures { result ≡ is_leap y }
{
    (y % 4 == 0) & ((y % 100 != 0) | (y % 16 == 0))
}

// The days from 1 January of year 0 to 1 January of the year y.
pub fn days_before_year(y: u64) -> u64
    requires { y ≤ 9999 }
    ensures { result ≡ days_before_year y }
{
    let hundreds = (y + 99) / 100;
    365 * y + (y + 3) / 4 + (hundreds + 3) / 4 - hundreds
}

// The days of the month m of the year y: none where there is no such month.
pub fn month_days(y: u64, m: u64) -> u64
    ensures { result ≡ month_days y m }
{
    if (m == 0) | (12 < m) {
        return 0;
    }
    if m == 2 {
        if is_leap(y) {
            return 29;
        }
        return 28;
    }
    30 + (m + m / 8) % 2
}

// The days of a leap year or another before its month m, from March on a month being 489 / 16 days.
pub fn before_in(leap: bool, m: u64) -> u64
    requires { m ≤ 12 }
    ensures { result ≡ before_in leap m }
{
    if m < 3 {
        return m / 2 * 31;
    }
    let before = (489 * m - 512) / 16;
    if leap {
        return before + 1;
    }
    before
}

// The days of the year y before its month m.
pub fn days_before_month(y: u64, m: u64) -> u64
    requires { m ≤ 12 }
    ensures { result ≡ days_before_month y m }
{
    before_in(is_leap(y), m)
}
