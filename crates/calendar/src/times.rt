// Times of day on a date, and the moments that they are.
ghost use Rattle.std.specs.Prelude.{◌≡◌};
ghost use Rattle.calendar.specs.Moments.{is_moment, is_time, moment_of, time_of};
ghost use Rattle.calendar.specs.Law.{MomentsAndTimes};

use crate::*;

// The last second of 9999.
pub const LAST_MOMENT: u64 = 254_033_452_799;

// Times in their order.
#[derive(Clone, Copy, Debug, PartialEq, Eq, PartialOrd, Ord)]
pub struct Time {
    pub date: Date,
    pub hour: u8,
    pub minute: u8,
    pub second: u8,
}

pub fn is_moment(m: u64) -> bool
    ensures { result ≡ is_moment m }
{
    m <= LAST_MOMENT
}

// The date and the time of day of a moment.
#[tactic(auto, using(crate::proofs::Laws::laws), unfolding(crate::specs::Moments::time_of, crate::specs::Moments::time_at))]
pub fn time_of(m: u64) -> Option<Time>
    ensures time { result ≡ time_of m }
    ensures inverse { MomentsAndTimes }
{
    if !is_moment(m) {
        return None;
    }
    let date = date_of((m / 86400) as u32)?;
    Some(Time {
        date,
        hour: (m % 86400 / 3600) as u8,
        minute: (m % 3600 / 60) as u8,
        second: (m % 60) as u8,
    })
}

// Whether the date exists and has that time of day.
pub fn is_time(time: Time) -> bool
    ensures { result ≡ is_time time }
{
    is_date(time.date) && time.hour <= 23 && time.minute <= 59 && time.second <= 59
}

// The moment of a date and a time of day, where both exist.
#[tactic(auto, unfolding(crate::specs::Moments::moment_of))]
pub fn moment_of(time: Time) -> Option<u64>
    ensures { result ≡ moment_of time }
{
    if !is_time(time) {
        return None;
    }
    let day = day_of(time.date)?;
    Some(
        day as u64 * 86400
            + (time.hour as u64 * 3600 + (time.minute as u64 * 60 + time.second as u64)),
    )
}
