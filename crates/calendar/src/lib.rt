// The Gregorian calendar from 1950 to 9999, and moments on it: the seconds since 1950-01-01 00:00:00 UTC.
#![tactic(auto)]

ghost use Rattle.std.specs.Prelude.{◌≡◌, ◌+◌, ◌-◌, ◌<◌, ◌≤◌};
ghost use Rattle.calendar.specs.Dates.{leap_year, year_days, days_in, days_to, month_start, is_date, day_of, date_of};
ghost use Rattle.calendar.specs.Law.{DaysAndDates};

pub mod times;

// The days from 1950-01-01 to 9999-12-31.
const ALL_DAYS: u32 = 2_940_202;

// Dates in the order of time.
#[derive(Clone, Copy, Debug, PartialEq, Eq, PartialOrd, Ord)]
pub struct Date {
    pub year: u16,
    pub month: u8,
    pub day: u8,
}

pub fn leap(year: u16) -> bool
    ensures { result ≡ leap_year year }
{
    year % 4 == 0 && (year % 100 != 0 || year % 400 == 0)
}

// How many days the month has: none where there is no such month. Year and month are two arguments, since no day belongs to them.
pub fn days_in(year: u16, month: u8) -> u8
    ensures { result ≡ days_in year month }
{
    match month {
        2 if leap(year) => 29,
        2 => 28,
        4 | 6 | 9 | 11 => 30,
        1..=12 => 31,
        _ => 0,
    }
}

// Whether the calendar has that day.
pub fn is_date(date: Date) -> bool
    ensures { result ≡ is_date date }
{
    matches!(
        (date.year, date.month, date.day),
        (1950..=9999, 1..=12, 1..=31) if date.day <= days_in(date.year, date.month)
    )
}

// The days from 1950 to the year's first, by the leap years up to the year before it.
fn year_start(year: u16) -> u32
    requires { (1950 ≤ year) × (year ≤ 10000) }
    ensures { result ≡ days_to (year - 1950) }
{
    let past = year as u32 - 1;
    365 * past + past / 4 - past / 100 + past / 400 - 711_857
}

// The days of a common year before each month.
const MONTH_STARTS: [u16; 12] = [0, 31, 59, 90, 120, 151, 181, 212, 243, 273, 304, 334];

// The days of the year before the month. By a table: a sum over the months before, made anew for each month that is tried,
// took a date of December twice the time.
fn month_start(year: u16, month: u8) -> u32
    requires { (1 ≤ month) × (month ≤ 12) }
    ensures { (result ≡ month_start year month) × (result ≤ 400) }
{
    let leap_day = month > 2 && leap(year);
    u32::from(MONTH_STARTS[usize::from(month) - 1]) + u32::from(leap_day)
}

// The days from 1950-01-01 to the date, where the calendar has it.
pub fn day_of(date: Date) -> Option<u32>
    ensures { result ≡ day_of date }
{
    if !is_date(date) {
        return None;
    }
    Some(year_start(date.year) + (month_start(date.year, date.month) + (date.day as u32 - 1)))
}

// The year that the day falls in. No year has more than 366 days, so the first that is tried is never late.
fn year_of(day: u32) -> u16
    requires { day < 2940202 }
    ensures { (1950 ≤ result) × (result ≤ 9999) × (days_to (result - 1950) ≤ day) × (day < days_to (result - 1950 + 1)) }
{
    let first = 1950 + (day / 366) as u16;
    (first..9999)
        .find(|year| day < year_start(year + 1))
        .unwrap_or(9999)
}

// The month that the day of the year falls in: the first whose next month begins after the day, or else December.
fn month_of(year: u16, day: u32) -> u8
    requires { day < year_days year }
    ensures { (1 ≤ result) × (result ≤ 12) × (month_start year result ≤ day) × (day < month_start year (result + 1)) }
{
    (1..12)
        .find(|month| day < month_start(year, month + 1))
        .unwrap_or(12)
}

// The date that many days after 1950-01-01, up to the last of 9999.
#[tactic(auto, using(crate::proofs::Years::day_of_month, crate::proofs::Laws::laws))]
pub fn date_of(day: u32) -> Option<Date>
    ensures date { result ≡ date_of day }
    ensures inverse { DaysAndDates }
{
    if day >= ALL_DAYS {
        return None;
    }
    let year = year_of(day);
    let rest = day - year_start(year);
    let month = month_of(year, rest);
    Some(Date {
        year,
        month,
        day: (rest - month_start(year, month)) as u8 + 1,
    })
}
