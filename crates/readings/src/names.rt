// Checking a list of names, making one, and finding a name in it.
ghost use Rattle.std.specs.Prelude.{◌≡◌, ℕ, ◌+◌, ◌<◌, ◌≤◌, ◌&&◌, List, [], ◌∷◌, ◌++◌, length, Some, None, MatchOption, MatchResult, nat_le, nat_lt};
ghost use Rattle.rules.specs.First.{answer};
ghost use Rattle.rules.specs.Names.{spelled};
ghost use Rattle.readings.specs.Listed.{lent, spellings, find_in, refused_names, kept_by};

use crate::listed::NameList;
use rules::{Fault, Name, same_name};

impl<const MOST: usize> NameList<MOST> {
    fn empty() -> NameList<MOST>
        ensures { result.count ≡ 0 }
    {
        NameList {
            names: [Name::none(); MOST],
            count: 0,
        }
    }

    // Writes a name behind the others.
    fn push(&mut self, name: Name)
        requires { self.old.count < MOST }
        ensures names { spellings self.new ≡ spellings self.old ++ spelled name ∷ [] }
        ensures count { self.new.count ≡ self.old.count + 1 }
    {
        let at = self.count;
        self.names[at] = name;
        self.count = at + 1;
    }

    // The place of a name, from 0 on.
    fn place(&self, name: &[u8]) -> Option<usize>
        ensures { MatchOption result (find_in (spellings self.now) name.now ≡ None) (λ i. (i < self.now.count) × (find_in (spellings self.now) name.now ≡ Some (i + 1))) }
    {
        let mut names = self.names[..self.count].iter();
        names.position(|known| same_name(known.text(), name))
    }

    // The number of a name, from 1 on. A number is a byte.
    pub(crate) fn find(&self, name: &[u8]) -> Option<u8>
        requires { MOST < 256 }
        ensures { result ≡ find_in (spellings self.now) name.now }
    {
        let i = self.place(name)?;
        Some(i as u8 + 1)
    }

    // Whether a name has this number.
    pub(crate) fn has(&self, name: u8) -> bool
        ensures { result ≡ (nat_lt 0 name && nat_le name (length (spellings self.now))) }
    {
        name > 0 && name as usize <= self.count
    }

    // The list of these names, or why it is refused.
    fn gather(names: &[&[u8]]) -> Result<NameList<MOST>, Fault>
        ensures { MatchResult result (λ l. (refused_names MOST (lent names.now) ≡ None) × (spellings l ≡ lent names.now)) (λ f. refused_names MOST (lent names.now) ≡ Some f) }
    {
        if names.len() > MOST {
            return Err(Fault::ManyNames(MOST + 1));
        }
        let mut list = NameList::empty();
        for (i, text) in names.iter().enumerate() {
            let name = Name::read(text).ok_or(Fault::NotAName(i + 1))?;
            if list.place(text).is_some() {
                return Err(Fault::RepeatedName(i + 1));
            }
            list.push(name);
        }
        Ok(list)
    }

    // How many names the list has, or why it is refused.
    pub(crate) fn check(names: &[&[u8]]) -> Result<usize, Fault>
        requires { MOST < 256 }
        ensures { result ≡ answer (refused_names MOST (lent names.now)) (length names.now) }
    {
        NameList::<MOST>::gather(names)?;
        Ok(names.len())
    }

    // The list of these names; no names where the check refuses them.
    pub(crate) fn new(names: &[&[u8]]) -> NameList<MOST>
        ensures { spellings result ≡ kept_by (refused_names MOST (lent names.now)) (lent names.now) }
    {
        NameList::gather(names).unwrap_or(NameList::empty())
    }
}
