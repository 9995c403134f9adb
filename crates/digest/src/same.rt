// The comparison of two digests.
ghost use Rattle.std.specs.Prelude.{◌≡◌, Decides};
ghost use Rattle.std.specs.Str.{bytes_eq};

// Whether two digests are the same. Every octet is looked at, whatever the others were, so that the time taken says
// nothing of where the first difference stands.
pub fn same_digest(a: &[u8; 32], b: &[u8; 32]) -> bool
    ensures is { result ≡ bytes_eq a.now b.now }
    ensures decides { Decides result (a.now ≡ b.now) }
{
    a.iter().zip(b).fold(0, |differ, (x, y)| differ | (x ^ y)) == 0
}
