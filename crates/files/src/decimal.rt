// Numbers as a file writes them.
ghost use Rattle.std.specs.Prelude.{◌≡◌};
ghost use Rattle.files.specs.Event.{ReadsByte, spoiled};

use std::str::from_utf8;

// Whether a text begins with a sign or a zero too many. `parse` would read both.
fn is_spoiled(text: &[u8]) -> bool
    ensures { result ≡ spoiled text.now }
{
    matches!(text, [b'+', ..] | [b'0', _, ..])
}

// The number below 256 that a text is, in decimals with no digit too many.
pub(crate) fn byte(text: &[u8]) -> Option<u8>
    ensures { ReadsByte text.now result }
{
    if is_spoiled(text) {
        return None;
    }
    from_utf8(text).ok()?.parse().ok()
}
