// Where a text is cut by what its octets are.
ghost use Rattle.std.specs.Prelude.{◌≡◌, ℕ, Bool, drop};
ghost use Rattle.std.specs.List.{before_first, position_or_len};

// A text, cut before its first octet that passes a test, or at its end where none does.
pub(crate) fn cut_before<F: Fn(u8) -> bool>(text: &[u8], stop: F) -> (&[u8], &[u8])
    requires { F.IsAlwaysCallable stop }
    ensures { (p : ℕ → Bool) → ((b : ℕ) (r : Bool) → F.post stop b r → r ≡ p b) → (result.0.now ≡ before_first p text.now) × (result.1.now ≡ drop (position_or_len p text.now) text.now) }
{
    let n = text.iter().position(|b| stop(*b)).unwrap_or(text.len());
    text.split_at(n)
}
