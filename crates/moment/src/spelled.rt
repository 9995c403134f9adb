// Texts that spell a time.
ghost use Rattle.std.specs.Prelude.{◌≡◌, ◌+◌, ◌*◌, ◌<◌, true, false, IsTrue, MatchOption};
ghost use Rattle.moment.specs.Forms.{fits as has_form, has_places, pair_at, TwoDigits};
ghost use Rattle.moment.specs.Texts.{year_at, time_in};

use crate::forms::fits;
use calendar::Date;
use calendar::times::Time;

// A text of some form, with digits for each part of a time: the year first, the month from `month` on, and each later
// part `step` after the one before it.
#[derive(Clone, Copy)]
pub struct Spelled<'a> {
    text: &'a [u8],
    month: usize,
    step: usize,
    ghost year: { TwoDigits text.now 0 × TwoDigits text.now 2 },
    ghost date: { TwoDigits text.now month × TwoDigits text.now (month + step) },
    ghost hour: { TwoDigits text.now (month + 2 * step) },
    ghost minute: { TwoDigits text.now (month + 3 * step) },
    ghost second: { TwoDigits text.now (month + 4 * step) },
}

impl<'a> Spelled<'a> {
    // The text, where it has the form, which has zeros at those places.
    pub fn new(text: &'a [u8], form: &[u8], month: usize, step: usize) -> Option<Spelled<'a>>
        requires { IsTrue (has_places form.now month step) }
        ensures { MatchOption result (has_form form.now text.now ≡ false)
            (λ s. (has_form form.now text.now ≡ true) × (s.text.now ≡ text.now) × (s.month ≡ month) × (s.step ≡ step)) }
    {
        if !fits(text, form) {
            return None;
        }
        Some(Spelled { text, month, step })
    }

    // The number that the two digits from `k` on spell.
    pub fn pair(self, k: usize) -> u8
        requires { TwoDigits self.text.now k }
        ensures { (result ≡ pair_at self.entry.text.now k) × (result < 100) }
    {
        (self.text[k] - b'0') * 10 + (self.text[k + 1] - b'0')
    }

    // The year that the first four digits spell.
    pub fn year(self) -> u16
        ensures { result ≡ year_at self.entry.text.now }
    {
        self.pair(0) as u16 * 100 + self.pair(2) as u16
    }

    // The time of that year: the text has all of it but the year.
    pub fn time(self, year: u16) -> Time
        ensures { result ≡ time_in self.entry.text.now year self.entry.month self.entry.step }
    {
        let date = Date {
            year,
            month: self.pair(self.month),
            day: self.pair(self.month + self.step),
        };
        Time {
            date,
            hour: self.pair(self.month + 2 * self.step),
            minute: self.pair(self.month + 3 * self.step),
            second: self.pair(self.month + 4 * self.step),
        }
    }
}
