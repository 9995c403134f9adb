// Why a certificate was revoked.
ghost use Rattle.std.specs.Prelude.{◌≡◌};
ghost use Rattle.std.specs.Result.{result_ok};
ghost use Rattle.der.specs.Reads.{mapped};
ghost use Rattle.telling.specs.Reasons.{reason_number, reason_from, reason_in};

// The reasons that are admitted.
#[derive(Clone, Copy, Debug, PartialEq, Eq)]
pub enum Reason {
    KeyCompromise = 1,
    CaCompromise = 2,
    AffiliationChanged = 3,
    Superseded = 4,
    CessationOfOperation = 5,
    PrivilegeWithdrawn = 9,
    AaCompromise = 10,
}

// No reason that is admitted.
#[derive(Clone, Copy, Debug, PartialEq, Eq)]
pub struct UnknownReason;

impl From<Reason> for u8 {
    ghost from_gives = { λ reason n. n ≡ reason_number reason };

    fn from(reason: Reason) -> u8 {
        reason as u8
    }
}

// The reason with this number, if it is admitted. Any number may be asked about.
impl TryFrom<u64> for Reason {
    type Error = UnknownReason;

    ghost try_from_gives = { λ number r. mapped reason_number (result_ok r) ≡ reason_from number };

    fn try_from(number: u64) -> Result<Reason, UnknownReason> {
        match number {
            1 => Ok(Reason::KeyCompromise),
            2 => Ok(Reason::CaCompromise),
            3 => Ok(Reason::AffiliationChanged),
            4 => Ok(Reason::Superseded),
            5 => Ok(Reason::CessationOfOperation),
            9 => Ok(Reason::PrivilegeWithdrawn),
            10 => Ok(Reason::AaCompromise),
            _ => Err(UnknownReason),
        }
    }
}

// The reason that the content of an ENUMERATED says, if it is admitted.
impl<'a> TryFrom<&'a [u8]> for Reason {
    type Error = UnknownReason;

    ghost try_from_gives = { λ octets r. mapped reason_number (result_ok r) ≡ reason_in octets.now };

    fn try_from(octets: &'a [u8]) -> Result<Reason, UnknownReason> {
        match octets {
            [number] => Reason::try_from(u64::from(*number)),
            _ => Err(UnknownReason),
        }
    }
}
