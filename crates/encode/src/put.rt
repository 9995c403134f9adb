// Octets, headers and items written over a memory from a place on. Each call answers the place after what it wrote.
// All of these are for the crates that write elements and lists: there the lengths are summed up before anything is
// written, so that a write that would not fit is refused with the memory untouched. Hence their `requires`.
// Memory and place stay two arguments: a struct that holds the lent memory was tried, and every contract then needs a
// clause more, that it still holds that memory. Lengths are a usize, as slices have them, and bounded in a clause.
ghost use Rattle.std.specs.Prelude.{◌≡◌, ℕ, ◌+◌, ◌<◌, ◌≤◌, List, ◌∷◌, length};
ghost use Rattle.encode.specs.Over.{Put};
ghost use Rattle.encode.specs.Der.{der, length_octets, ItemsWritten};

// Writes the octets.
pub fn put(out: &mut [u8], at: usize, from: &[u8]) -> usize
    requires { at + length from.now ≤ length out.old }
    ensures { Put at from.now out.old out.new result }
{
    let end = at + from.len();
    out[at..end].copy_from_slice(from);
    end
}

// How many octets tag and length take before a content of n octets.
pub fn head_size(n: usize) -> usize
    ensures { result ≡ 1 + length (length_octets n) }
{
    match n {
        0..=0x7f => 2,
        0x80..=0xff => 3,
        _ => 4,
    }
}

// How many octets an item with a content of n octets has, whatever its tag.
pub fn item_size(n: usize) -> usize
    requires { n ≤ 1000000 }
    ensures whole { (tag : ℕ) (xs : List ℕ) → n ≡ length xs → result ≡ length (der tag xs) }
    ensures bound { (n < result) × (result ≤ n + 4) }
{
    head_size(n) + n
}

// Writes tag and length. The ranges are those of `head_size`.
pub fn put_head(out: &mut [u8], at: usize, tag: u8, n: usize) -> usize
    requires room { at + (1 + length (length_octets n)) ≤ length out.old }
    requires short { n < 65536 }
    ensures { Put at (tag ∷ length_octets n) out.old out.new result }
{
    match n {
        0..=0x7f => put(out, at, &[tag, n as u8]),
        0x80..=0xff => put(out, at, &[tag, 0x81, n as u8]),
        _ => {
            let [high, low] = (n as u16).to_be_bytes();
            put(out, at, &[tag, 0x82, high, low])
        }
    }
}

// Writes an item with this content: octets that are that item, and no other.
pub fn put_item(out: &mut [u8], at: usize, tag: u8, content: &[u8]) -> usize
    requires room { at + length (der tag content.now) ≤ length out.old }
    requires short { length content.now < 65536 }
    ensures put { Put at (der tag content.now) out.old out.new result }
    ensures law { ItemsWritten }
{
    let start = put_head(out, at, tag, content.len());
    put(out, start, content)
}
