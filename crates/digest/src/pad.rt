// The end of a message: its last octets and the padding, in a local block or two.
ghost use Rattle.std.specs.Prelude.{◌≡◌, ◌+◌, ◌-◌, ◌*◌, ◌≤◌, ◌∷◌, ◌++◌, length, replicate};
ghost use Rattle.digest.specs.Sha256.{octets8};

// The rest of a message of `total` octets, padded to N octets.
pub(crate) fn padded<const N: usize>(rest: &[u8], total: u64) -> [u8; N]
    requires { length rest.now + 9 ≤ N }
    ensures { result ≡ rest.now ++ 0x80 ∷ (replicate (N - 9 - length rest.now) 0 ++ octets8 (8 * total)) }
{
    let mut all = [0u8; N];
    let s = &mut all[..];
    s[..rest.len()].copy_from_slice(rest);
    s[rest.len()] = 0x80;
    s[N - 8..].copy_from_slice(&total.wrapping_mul(8).to_be_bytes());
    all
}
