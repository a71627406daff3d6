// What a name spells, and when two names are the same.
ghost use Rattle.std.specs.Prelude.{◌≡◌, []};
ghost use Rattle.rules.specs.Names.{spelled, same_name};

use crate::name::{NAME_BYTES, Name};

// Whether two spellings are one name. Nothing else compares names.
pub fn same_name(a: &[u8], b: &[u8]) -> bool
    ensures { result ≡ same_name a.now b.now }
{
    a == b
}

impl Name {
    pub fn text(&self) -> &[u8]
        ensures { result.now ≡ spelled self.now }
    {
        &self.bytes[..usize::from(self.len).min(NAME_BYTES)]
    }

    // A name of no bytes, to fill a table with.
    pub fn none() -> Name
        ensures { spelled result ≡ [] }
    {
        Name {
            bytes: [0; NAME_BYTES],
            len: 0,
        }
    }
}
