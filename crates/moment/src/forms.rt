// Forms: texts in which a 0 stands for any digit, and every other octet for itself.
ghost use Rattle.std.specs.Prelude.{◌≡◌, [], ◌∷◌};
ghost use Rattle.moment.specs.Forms.{fills as may_fill, fits as has_form, tens, ones};

// Whether the octet may stand where the form has `slot`.
fn fills(slot: u8, octet: u8) -> bool
    ensures { result ≡ may_fill slot octet }
{
    match slot {
        b'0' => octet.is_ascii_digit(),
        _ => octet == slot,
    }
}

// Whether the text has the form.
pub fn fits(text: &[u8], form: &[u8]) -> bool
    ensures { result ≡ has_form form.now text.now }
{
    form.len() == text.len()
        && form
            .iter()
            .zip(text)
            .all(|(slot, octet)| fills(*slot, *octet))
}

// The two digits of a number below a hundred. By hand, since the core has no writer and no heap.
pub fn two(n: u8) -> [u8; 2]
    ensures { result ≡ tens n ∷ ones n ∷ [] }
{
    [b'0' + n / 10, b'0' + n % 10]
}
