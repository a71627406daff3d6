// Comparing what readings say, and what they refuse.
use crate::same::same;
use crate::source::Source;
use crate::texts::NAMES;
use readings::{Named, Panel, Words};
use reference::{Grade, Kind, Reading, Refusal, Set};
use std::alloc::AllocError;

// A reading of the library, and its kind in the reference.
pub trait Paired: Named + Copy + Drop {
    const KIND: Kind;
}

impl Paired for Words {
    const KIND: Kind = Kind::Words;
}

impl Paired for Panel {
    const KIND: Kind = Kind::Panel;
}

// Whether a list of names is refused alike.
pub fn same_names<R: Paired>(names: &[&[u8]], plain: &Result<Reading, Refusal>) -> bool {
    same(R::check(names), plain, |count, _| count == names.len())
}

// A code, seldom one that the reading has not.
pub fn some_code(source: &mut Source, kind: Kind) -> u32 {
    if source.one_in(50) {
        return kind.codes().wrapping_add(source.below(3));
    }
    match kind {
        Kind::Words => source.below(6),
        Kind::Panel => source.below(256).wrapping_add(if source.one_in(6) {
            source.below(256).wrapping_mul(256)
        } else {
            65_280
        }),
    }
}

// Whether a reading shows the same at a code for a list of numbers, has the same sets possible and finds the same name.
pub fn same_shown<R: Paired>(source: &mut Source, names: &[&[u8]], list: &[u8]) -> bool {
    let reading = R::new(names);
    let plain = Reading {
        kind: R::KIND,
        names,
    };
    let code = some_code(source, R::KIND);
    let set = (source.below(8) & 255) as u8;
    let sought = source.pick(&NAMES);
    let (on, doubt) = reading.show(code, list);
    plain.places(Grade::Kept, code, list) == Set(u64::from(on))
        && plain.places(Grade::Unclear, code, list) == Set(u64::from(doubt))
        && reading.codes() == R::KIND.codes()
        && reading.find(sought).map(usize::from) == plain.find(sought)
        && (!source.one_in(8)
            || reading.possible(list, set) == plain.is_possible(list, Set(u64::from(set))))
}

// A list of numbers, some of which no name has.
pub fn some_numbers(source: &mut Source) -> Result<Vec<u8>, AllocError> {
    let count = source.below(11);
    source.several(count, |source| (source.below(10) & 255) as u8)
}
