// Dates as numbers, YYYYMMDD: which numbers are days, and of a day the year, the days since 1 January and the days of its year.
#![tactic(auto)]

ghost use Rattle.std.specs.Prelude.{◌≡◌, ◌≤◌, T, pos, nat_abs};
ghost use Rattle.number_whole.specs.Listed.{listed};
ghost use Rattle.quote_calendar.specs.Calendar.{date_year, leap_year, year_days, month_days, between, is_day, days_before, day_of_year};

// The days before month 1 to 12 of a common year and of a leap year, and before their end. Month 0 is none.
const BEFORE: [u64; 14] = [
    0, 0, 31, 59, 90, 120, 151, 181, 212, 243, 273, 304, 334, 365,
];

const LEAP_BEFORE: [u64; 14] = [
    0, 0, 31, 60, 91, 121, 152, 182, 213, 244, 274, 305, 335, 366,
];

// Whether a year is a leap year by the Gregorian rule.
fn leap_year(year: u64) -> bool
    ensures { result ≡ leap_year year }
{
    year % 4 == 0 && (year % 100 != 0 || year % 400 == 0)
}

// The days of a year.
pub fn year_days(year: u64) -> u64
    ensures { result ≡ year_days year }
{
    if leap_year(year) {
        return 366;
    }
    365
}

// The days before each month, and before the year's end.
fn table(leap: bool) -> [u64; 14]
    ensures { result ≡ listed (days_before leap) 0 14 }
{
    if leap {
        return LEAP_BEFORE;
    }
    BEFORE
}

// The days of the months before a month.
fn days_before(leap: bool, month: u64) -> u64
    requires { month ≤ 13 }
    ensures { result ≡ days_before leap month }
{
    let days = table(leap);
    days[month as usize]
}

// The days of a month.
fn month_days(leap: bool, month: u64) -> u64
    requires { month ≤ 12 }
    ensures { result ≡ month_days leap month }
{
    days_before(leap, month + 1) - days_before(leap, month)
}

// Whether n is at least low and at most high.
fn between(low: u64, high: u64, n: u64) -> bool
    ensures { result ≡ between low high n }
{
    (low..=high).contains(&n)
}

// Whether a number without a sign is a day.
fn is_plain_day(z: u64) -> bool
    ensures { result ≡ is_day (pos z) }
{
    let year = z / 10_000;
    let month = z / 100 % 100;
    between(1000, 9999, year)
        && between(1, 12, month)
        && between(1, month_days(leap_year(year), month), z % 100)
}

// Whether a number is a day.
pub fn is_day(date: i64) -> bool
    ensures { result ≡ is_day date }
{
    date >= 0 && is_plain_day(date.unsigned_abs())
}

// The year of a day.
pub fn date_year(date: i64) -> u64
    requires { T (is_day date) }
    ensures { result ≡ date_year (nat_abs date) }
{
    date.unsigned_abs() / 10_000
}

// The days since 1 January of a day's year.
pub fn day_of_year(date: i64) -> u64
    requires { T (is_day date) }
    ensures { result ≡ day_of_year (nat_abs date) }
{
    let z = date.unsigned_abs();
    let before = days_before(leap_year(z / 10_000), z / 100 % 100);
    before + (z % 100 - 1)
}
