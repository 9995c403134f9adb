// The values that every answer is made of: octets, moments, places, and a dash for what is absent.
ghost use Rattle.std.specs.Prelude.{◌∷◌, ◌++◌, length, Some, decimal};
ghost use Rattle.report.specs.Values.{hexed, moment_text, or_dash};

use items::item::Part;
use moment::texts::rfc3339_text;
use std::fmt;

// Octets in lower case hex, two digits to an octet.
#[derive(Clone, Copy)]
pub struct Hex<'a>(pub &'a [u8]);

impl<'a> fmt::Display for Hex<'a> {
    ghost output = { λ h. Some (hexed h.0.now) };

    fn fmt<W: fmt::Write>(&self, f: &mut fmt::Formatter<W>) -> fmt::Result {
        for &b in self.0 {
            write!(f, "{b:02x}")?;
        }
        Ok(())
    }
}

// A moment as `YYYY-MM-DDTHH:MM:SSZ`. A moment past the year 9999 has no such text, and is printed as its seconds.
#[derive(Clone, Copy)]
pub struct Moment(pub u64);

impl fmt::Display for Moment {
    ghost output = { λ m. Some (moment_text m.0) };

    fn fmt<W: fmt::Write>(&self, f: &mut fmt::Formatter<W>) -> fmt::Result {
        let Some(octets) = rfc3339_text(self.0) else {
            return write!(f, "{}", self.0);
        };
        f.write_str(std::str::from_utf8(&octets).map_err(|_| fmt::Error)?)
    }
}

// Where a part begins, and how long it is.
#[derive(Clone, Copy)]
pub struct Place<'a>(pub Part<'a>);

impl<'a> fmt::Display for Place<'a> {
    ghost output = { λ p. Some (decimal p.0.offset ++ (32 ∷ decimal (length p.0.octets.now))) };

    fn fmt<W: fmt::Write>(&self, f: &mut fmt::Formatter<W>) -> fmt::Result {
        write!(f, "{} {}", self.0.offset, self.0.octets.len())
    }
}

// A value, or a dash where there is none.
#[derive(Clone, Copy)]
pub struct OrDash<T>(pub Option<T>);

impl<T: fmt::Display> fmt::Display for OrDash<T> {
    ghost output = { λ x. or_dash T.Display.output x.0 };

    fn fmt<W: fmt::Write>(&self, f: &mut fmt::Formatter<W>) -> fmt::Result {
        match &self.0 {
            Some(value) => value.fmt(f),
            None => f.write_str("-"),
        }
    }
}
