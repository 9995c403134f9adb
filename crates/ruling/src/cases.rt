// What is asked, what a list and its entries say of a certificate, and what one list rules.
ghost use Rattle.std.specs.Prelude.{◌≡◌};
ghost use Rattle.std.specs.Str.{bytes_eq};
ghost use Rattle.ruling.specs.Cases.{serial_of, ruling_of, ruling_number};

use telling::reason::Reason;

// The moments of a question: when the certificate begins and ends, and the moment that is asked about.
#[derive(Clone, Copy, Debug, PartialEq, Eq)]
pub struct Moments {
    pub not_before: u64,
    pub not_after: u64,
    pub control_time: u64,
}

// A question about the certificate with this serial by the issuer with this number.
#[derive(Clone, Copy, Debug, PartialEq, Eq)]
pub struct Question<'a> {
    pub issuer: u8,
    pub serial: &'a [u8],
    pub moments: Moments,
}

// What a taken list says of itself.
#[derive(Clone, Copy, Debug, PartialEq, Eq)]
pub struct Facts {
    pub issuer: u8,
    pub this_update: u64,
    pub expired: Option<u64>,
}

// An entry of a list. The serial is the first `size` of the octets: a line of a lent table has a fixed size and no heap.
#[derive(Clone, Copy, Debug, PartialEq, Eq)]
pub struct EntryLine {
    pub serial: [u8; 20],
    pub size: u8,
    pub date: u64,
    pub reason: Option<Reason>,
}

// When and why a serial was revoked. Rulings, answers and lines have the two parts by themselves, as their definitions name them.
#[derive(Clone, Copy, Debug, PartialEq, Eq)]
pub struct Mark {
    pub date: u64,
    pub reason: Option<Reason>,
}

// What one list rules.
#[derive(Clone, Copy, Debug, PartialEq, Eq)]
pub enum Ruling {
    // It does not rule.
    Silent,
    // It covers the certificate, but is too early to say that it is valid.
    Waiting,
    // Valid at the moment that is asked about.
    Valid,
    // Revoked by then.
    Revoked { date: u64, reason: Option<Reason> },
}

impl EntryLine {
    // Whether the entry is of this serial.
    pub fn is_of(&self, serial: &[u8]) -> bool
        ensures { result ≡ bytes_eq (serial_of self.now) serial.now }
    {
        let size = (self.size as usize).min(20);
        &self.serial[..size] == serial
    }
}

// The number of the ruling.
impl From<Ruling> for u8 {
    ghost from_gives = { λ ruling number. number ≡ ruling_number (ruling_of ruling) };

    fn from(ruling: Ruling) -> u8 {
        match ruling {
            Ruling::Silent => 0,
            Ruling::Waiting => 1,
            Ruling::Valid => 2,
            Ruling::Revoked { .. } => 3,
        }
    }
}
