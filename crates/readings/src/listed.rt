// A list of names, numbered in order: an array and a count, since the library has no heap.
ghost use Rattle.std.specs.Prelude.{◌≡◌, ◌≤◌, length};

use rules::Name;

#[derive(Clone, Copy)]
pub struct NameList<const MOST: usize> {
    pub(crate) names: [Name; MOST],
    pub(crate) count: usize,
    ghost few: { count ≤ MOST },
    ghost long: { length names ≡ MOST },
}
