// What can still come. A rest is a list of sets of letters.
use crate::formula::Formula;
use crate::grade::Grade;
use crate::meaning::Record;
use crate::set::Set;
use std::alloc::{AllocError, Global};
use std::collections::BTreeSet;

impl Formula {
    // The events of a record, and a rest behind them.
    pub(crate) fn followed(
        &self,
        heap: Global,
        record: &Record,
        rest: &[Set],
    ) -> Result<Record, AllocError> {
        let mut events = record.events.clone()?;
        for set in rest {
            events.push(
                (1..=self.letters.len())
                    .map(|letter| Grade::from(set.has(letter)))
                    .collect(heap)?,
            )?;
        }
        Ok(Record { events })
    }

    // The set of the nodes that hold at the first place of a rest.
    fn nodes_holding(&self, heap: Global, rest: &[Set]) -> Result<Set, AllocError> {
        let none = Record {
            events: Vec::new(heap),
        };
        let record = self.followed(heap, &none, rest)?;
        let values = self.values(heap, &record)?;
        Ok(Set::of((1..=self.root()).map(|j| values.holds(j, 1))))
    }
}

// The rest that begins with a set and goes on as another.
fn longer(heap: Global, set: Set, rest: &[Set]) -> Result<Vec<Set>, AllocError> {
    let mut sets = vec![in heap; set]?;
    sets.extend_from_slice(rest)?;
    Ok(sets)
}

// Rests that stand for all: of those on which the same nodes hold, which no event in front can tell apart, the list has one.
pub fn all_rests(
    heap: Global,
    formula: &Formula,
    possible: &BTreeSet<Set>,
) -> Result<Vec<Vec<Set>>, AllocError> {
    let mut seen = BTreeSet::new(heap);
    seen.insert(formula.nodes_holding(heap, &[])?)?;
    let mut rests: Vec<Vec<Set>> = Vec::new(heap);
    rests.push(Vec::new(heap))?;
    // The list grows as it is read, so no iterator can hold it. The bound is there only so that the loop is seen to end.
    for i in 0..100_000 {
        let Some(rest) = rests.get(i) else {
            break;
        };
        let rest = rest.clone()?;
        for set in possible.iter() {
            let rest = longer(heap, *set, rest.as_slice())?;
            if seen.insert(formula.nodes_holding(heap, rest.as_slice())?)? {
                rests.push(rest)?;
            }
        }
    }
    Ok(rests)
}
