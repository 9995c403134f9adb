// What is shown of a refused input.
ghost use Rattle.std.specs.Prelude.{◌≡◌, drop};
ghost use Rattle.refusals.specs.Shows.{shown};

use super::grounds::*;

// The octets from the offset on, or none past the end.
fn suffix(octets: &[u8], offset: usize) -> &[u8]
    ensures { result.now ≡ drop offset octets.now }
{
    octets.get(offset..).unwrap_or(&[])
}

// The rest of the refused input from the refusal's offset on, out of the list or out of the roll (or name).
pub fn show<'a>(refusal: Refusal, list: &'a [u8], roll: &'a [u8]) -> &'a [u8]
    ensures { result.now ≡ shown refusal.input refusal.offset list.now roll.now }
{
    match refusal.input {
        Input::Neither => &[],
        Input::List => suffix(list, refusal.offset),
        Input::Roll => suffix(roll, refusal.offset),
    }
}
