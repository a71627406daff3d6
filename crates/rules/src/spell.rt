// A name from its bytes.
ghost use Rattle.std.specs.Prelude.{◌≡◌, true, false, MatchOption};
ghost use Rattle.rules.specs.Names.{spelled};
ghost use Rattle.rules.specs.Signs.{from_letter, all_in_word, is_name};

use crate::class::in_word;
use crate::lex::reserved;
use crate::name::{NAME_BYTES, Name};
use crate::sign::Class;

// Whether the first byte is a letter.
fn from_letter(text: &[u8]) -> bool
    ensures { result ≡ from_letter text.now }
{
    matches!(text, [b, ..] if Class::from(*b) == Class::Letter)
}

// Whether each byte may stand in a word.
fn all_in_word(text: &[u8]) -> bool
    ensures { result ≡ all_in_word text.now }
{
    text.iter().all(|b| in_word(*b))
}

// Whether the bytes are a name.
fn is_name(text: &[u8]) -> bool
    ensures { result ≡ is_name text.now }
{
    from_letter(text) && all_in_word(text) && text.len() <= NAME_BYTES && reserved(text).is_none()
}

impl Name {
    // The name that the bytes are, if they are one.
    pub fn read(text: &[u8]) -> Option<Name>
        ensures { MatchOption result (is_name text.now ≡ false) (λ n. (is_name text.now ≡ true) × (spelled n ≡ text.now)) }
    {
        is_name(text).then(|| Name::copied(text))
    }
}
