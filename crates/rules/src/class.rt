// The classes of bytes.
ghost use Rattle.std.specs.Prelude.{◌≡◌};
ghost use Rattle.rules.specs.Signs.{code, class, in_word};

use crate::sign::Class;

// A class is one byte of this constant table, so that finding it takes one look: L letter, D digit or underscore, B blank, S first byte of a sign that is no word, - none.
const CLASS: &[u8; 256] = b"\
    ---------B----------------------\
    BS------SS-S-S-SDDDDDDDDDD--S---\
    -LLLLLLLLLLLLLLLLLLLLLLLLLLSS--D\
    -LLLLLLLLLLLLLLLLLLLLLLLLLL-----\
    --------------------------------\
    --------------------------------\
    --------------------------------\
    --------------------------------";

fn class_code(b: u8) -> u8
    ensures { result ≡ code (class b) }
{
    CLASS[usize::from(b)]
}

impl From<u8> for Class {
    ghost from_gives = { λ b r. r ≡ class b };

    fn from(b: u8) -> Class {
        match class_code(b) {
            b'L' => Class::Letter,
            b'D' => Class::Digit,
            b'B' => Class::Blank,
            b'S' => Class::Mark,
            _ => Class::Other,
        }
    }
}

// Whether a byte may stand in a word.
pub(crate) fn in_word(b: u8) -> bool
    ensures { result ≡ in_word (class b) }
{
    matches!(Class::from(b), Class::Letter | Class::Digit)
}
