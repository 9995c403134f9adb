// Signature algorithms, compared whole.
ghost use Rattle.std.specs.Prelude.{◌≡◌};
ghost use Rattle.std.specs.Result.{result_ok};
ghost use Rattle.der.specs.Reads.{told, HasEnds};
ghost use Rattle.algorithm.specs.Algorithms.{algorithm_code, algorithm_octets, algorithm_in, algorithm_at, again_at};

use der::reader::*;
use refusals::grounds::*;

// The AlgorithmIdentifiers that are admitted, as they stand in a list.
pub const SHA1_WITH_RSA: &[u8] = &[
    0x30, 0x0d, 0x06, 0x09, 0x2a, 0x86, 0x48, 0x86, 0xf7, 0x0d, 0x01, 0x01, 0x05, 0x05, 0x00,
];

pub const SHA256_WITH_RSA: &[u8] = &[
    0x30, 0x0d, 0x06, 0x09, 0x2a, 0x86, 0x48, 0x86, 0xf7, 0x0d, 0x01, 0x01, 0x0b, 0x05, 0x00,
];

pub const HMAC_WITH_SHA256: &[u8] = &[
    0x30, 0x0c, 0x06, 0x08, 0x2a, 0x86, 0x48, 0x86, 0xf7, 0x0d, 0x02, 0x09, 0x05, 0x00,
];

// How a list is signed.
#[derive(Clone, Copy, Debug, PartialEq, Eq)]
pub enum Algorithm {
    Sha1WithRsa = 1,
    Sha256WithRsa = 2,
    HmacWithSha256 = 3,
}

// No algorithm that is admitted.
#[derive(Clone, Copy, Debug, PartialEq, Eq)]
pub struct UnknownAlgorithm;

// The code of an algorithm.
impl From<Algorithm> for u8 {
    ghost from_gives = { λ algorithm n. n ≡ algorithm_code algorithm };

    fn from(algorithm: Algorithm) -> u8 {
        algorithm as u8
    }
}

// The algorithm with this AlgorithmIdentifier, if it is admitted. By `==`: a match on fifteen octets was not proved (tried).
impl<'a> TryFrom<&'a [u8]> for Algorithm {
    type Error = UnknownAlgorithm;

    ghost try_from_gives = { λ octets r. result_ok r ≡ algorithm_in octets.now };

    #[tactic(auto, unfolding(crate::specs::Algorithms::algorithm_in))]
    fn try_from(octets: &'a [u8]) -> Result<Algorithm, UnknownAlgorithm> {
        if octets == SHA1_WITH_RSA {
            Ok(Algorithm::Sha1WithRsa)
        } else if octets == SHA256_WITH_RSA {
            Ok(Algorithm::Sha256WithRsa)
        } else if octets == HMAC_WITH_SHA256 {
            Ok(Algorithm::HmacWithSha256)
        } else {
            Err(UnknownAlgorithm)
        }
    }
}

impl Algorithm {
    // Its AlgorithmIdentifier.
    pub fn octets(self) -> &'static [u8]
        ensures { result.now ≡ algorithm_octets self }
    {
        match self {
            Algorithm::Sha1WithRsa => SHA1_WITH_RSA,
            Algorithm::Sha256WithRsa => SHA256_WITH_RSA,
            Algorithm::HmacWithSha256 => HMAC_WITH_SHA256,
        }
    }
}

// The algorithm in the signed block.
#[tactic(auto, unfolding(crate::specs::Algorithms::algorithm_at))]
pub fn read_algorithm(reader: &mut Reader) -> Result<Algorithm, Fault>
    ensures read { told (λ a. a) result reader.new ≡ algorithm_at reader.old }
    ensures ends { HasEnds reader.old reader.new }
{
    let offset = reader.offset();
    let item = reader.raw()?;
    Algorithm::try_from(item.octets).map_err(|_| unexpected(offset))
}

// The algorithm behind the signed block, which must be the block's, octet for octet: it is compared and not read again.
#[tactic(auto, unfolding(crate::specs::Algorithms::again_at))]
pub fn algorithm_again(reader: &mut Reader, algorithm: Algorithm) -> Result<(), Fault>
    ensures read { told (λ u. u) result reader.new ≡ again_at algorithm reader.old }
    ensures ends { HasEnds reader.old reader.new }
{
    let offset = reader.offset();
    let item = reader.raw()?;
    if item.octets != algorithm.octets() {
        return Err(unexpected(offset));
    }
    Ok(())
}
