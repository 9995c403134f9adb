// Verifiers: each says of a list whether it is genuine, by a meaning of its own.
ghost use Rattle.std.specs.Prelude.{◌≡◌};
ghost use Rattle.algorithm.specs.Algorithms.{algorithm_code};
ghost use Rattle.verifier.specs.Cases.{Case, Meaning};

use algorithm::identifiers::Algorithm;
use items::item::Part;

// Something that can tell a genuine list. Asking alters nothing, and the answer is that of the meaning.
pub trait Verifier {
    // A yes or no to each case, fixed by what the verifier holds now.
    ghost meaning: { Self → Meaning };

    // Whether a list of that issuer number is genuine: signed by this algorithm, with this thisUpdate, the whole item
    // of its signed block as a part of the list, and its signature after the first content octet. A caller has these
    // apart: a struct of them would be taken apart again by each verifier.
    fn genuine(
        &self,
        issuer: u8,
        algorithm: Algorithm,
        this_update: u64,
        block: Part,
        signature: &[u8],
    ) -> bool
        ensures { result ≡ meaning self.now (record { issuer = issuer; code = algorithm_code algorithm; this_update = this_update; block = block.entry.octets.now; signature = signature.now }) };
}
