// The texts of moments, written and read.
ghost use Rattle.std.specs.Prelude.{◌≡◌, ◌<◌};
ghost use Rattle.std.specs.Option.{option_map};
ghost use Rattle.calendar.specs.Moments.{time_of};
ghost use Rattle.moment.specs.Texts.{digits_of, full_year};
ghost use Rattle.moment.specs.Texts.{utc_text, utc_read, utc_time, general_text, general_read, general_time};
ghost use Rattle.moment.specs.Texts.{rfc3339_text, rfc3339_read, rfc3339_time};
ghost use Rattle.moment.specs.Law.{UtcTimeInverse, GeneralizedTimeInverse, Rfc3339Inverse};
ghost use Rattle.moment.specs.Law.{GeneralizedTimeOrdered, Rfc3339Ordered, OnlyExistingTimes};

use crate::forms::two;
use crate::spelled::Spelled;
use calendar::times::{Time, moment_of, time_of};

// The first second that no UTCTime can say.
pub const FIRST_OF_2050: u64 = 3_155_760_000;

// The digits of a time, from the year to the second.
fn digits(time: Time) -> [u8; 14]
    requires { time.date.year < 10000 }
    ensures { result ≡ digits_of time }
{
    let [y1, y2] = two((time.date.year / 100) as u8);
    let [y3, y4] = two((time.date.year % 100) as u8);
    let [m1, m2] = two(time.date.month);
    let [d1, d2] = two(time.date.day);
    let [h1, h2] = two(time.hour);
    let [n1, n2] = two(time.minute);
    let [s1, s2] = two(time.second);
    [y1, y2, y3, y4, m1, m2, d1, d2, h1, h2, n1, n2, s1, s2]
}

// The digits of a moment's time.
fn moment_digits(m: u64) -> Option<[u8; 14]>
    ensures { result ≡ option_map digits_of (time_of m) }
{
    time_of(m).map(digits)
}

// The GeneralizedTime of a moment. It and the two texts below lay the same digits out, each in its own way, and stay apart: of
// a closure over an array pattern nothing is inferred (tried).
#[tactic(auto, using(crate::proofs::Laws::laws), unfolding(crate::specs::Texts::general_text, crate::specs::Forms::lay))]
pub fn general_text(m: u64) -> Option<[u8; 15]>
    ensures text { result ≡ general_text m }
    ensures order { GeneralizedTimeOrdered }
{
    let [y1, y2, y3, y4, m1, m2, d1, d2, h1, h2, n1, n2, s1, s2] = moment_digits(m)?;
    Some([y1, y2, y3, y4, m1, m2, d1, d2, h1, h2, n1, n2, s1, s2, b'Z'])
}

// The RFC 3339 text of a moment.
#[tactic(auto, using(crate::proofs::Laws::laws), unfolding(crate::specs::Texts::rfc3339_text, crate::specs::Forms::lay))]
pub fn rfc3339_text(m: u64) -> Option<[u8; 20]>
    ensures text { result ≡ rfc3339_text m }
    ensures order { Rfc3339Ordered }
{
    let [y1, y2, y3, y4, m1, m2, d1, d2, h1, h2, n1, n2, s1, s2] = moment_digits(m)?;
    Some([
        y1, y2, y3, y4, b'-', m1, m2, b'-', d1, d2, b'T', h1, h2, b':', n1, n2, b':', s1, s2, b'Z',
    ])
}

// The UTCTime of a moment before 2050.
#[tactic(auto, unfolding(crate::specs::Texts::utc_text, crate::specs::Forms::lay))]
pub fn utc_text(m: u64) -> Option<[u8; 13]>
    ensures { result ≡ utc_text m }
{
    if m >= FIRST_OF_2050 {
        return None;
    }
    let [_, _, y3, y4, m1, m2, d1, d2, h1, h2, n1, n2, s1, s2] = moment_digits(m)?;
    Some([y3, y4, m1, m2, d1, d2, h1, h2, n1, n2, s1, s2, b'Z'])
}

// The year that a UTCTime's two digits mean.
fn full_year(yy: u8) -> u16
    ensures { result ≡ full_year yy }
{
    match yy {
        0..=49 => 2000 + yy as u16,
        50..=99 => 1900 + yy as u16,
        _ => yy as u16,
    }
}

// The moment that a GeneralizedTime is. What the three readers share is `Spelled`; each names its form and its year.
#[tactic(auto, using(crate::proofs::Laws::laws), unfolding(crate::specs::Texts::general_read))]
pub fn read_general(text: &[u8]) -> Option<u64>
    ensures read { result ≡ general_read text.now }
    ensures inverse { GeneralizedTimeInverse }
    ensures times { OnlyExistingTimes general_read general_time }
{
    let spelled = Spelled::new(text, b"00000000000000Z", 4, 2)?;
    moment_of(spelled.time(spelled.year()))
}

// The moment that an RFC 3339 text is.
#[tactic(auto, using(crate::proofs::Laws::laws), unfolding(crate::specs::Texts::rfc3339_read))]
pub fn read_rfc3339(text: &[u8]) -> Option<u64>
    ensures read { result ≡ rfc3339_read text.now }
    ensures inverse { Rfc3339Inverse }
    ensures times { OnlyExistingTimes rfc3339_read rfc3339_time }
{
    let spelled = Spelled::new(text, b"0000-00-00T00:00:00Z", 5, 3)?;
    moment_of(spelled.time(spelled.year()))
}

// The moment that a UTCTime is.
#[tactic(auto, using(crate::proofs::Laws::laws), unfolding(crate::specs::Texts::utc_read))]
pub fn read_utc(text: &[u8]) -> Option<u64>
    ensures read { result ≡ utc_read text.now }
    ensures inverse { UtcTimeInverse }
    ensures times { OnlyExistingTimes utc_read utc_time }
{
    let spelled = Spelled::new(text, b"000000000000Z", 2, 2)?;
    moment_of(spelled.time(full_year(spelled.pair(0))))
}
