// How far something holds.
ghost use Rattle.std.specs.Prelude.{◌≡◌, Some};
ghost use Rattle.reference.specs.Cases.{turned, grade_if};
ghost use Rattle.reference.specs.Printed.{grade_word};

use std::fmt;
use std::ops::Not;

// The meet of two grades is the lower of them, the join the higher. The mark of a letter is a grade too: off is broken, and in
// doubt is unclear.
#[derive(Clone, Copy, PartialEq, Eq, PartialOrd, Ord, Debug)]
pub enum Grade {
    Broken,
    Unclear,
    Kept,
}

impl Not for Grade {
    type Output = Grade;

    ghost not_gives = { λ g r. r ≡ turned g };

    fn not(self) -> Grade {
        match self {
            Grade::Broken => Grade::Kept,
            Grade::Unclear => Grade::Unclear,
            Grade::Kept => Grade::Broken,
        }
    }
}

// The grade of what only holds or does not.
impl From<bool> for Grade {
    ghost from_gives = { λ holds r. r ≡ grade_if holds };

    fn from(holds: bool) -> Grade {
        if holds { Grade::Kept } else { Grade::Broken }
    }
}

impl fmt::Display for Grade {
    ghost output = { λ g. Some (grade_word g) };

    fn fmt<W: fmt::Write>(&self, f: &mut fmt::Formatter<W>) -> fmt::Result {
        f.write_str(match self {
            Grade::Broken => "broken",
            Grade::Unclear => "unclear",
            Grade::Kept => "kept",
        })
    }
}
