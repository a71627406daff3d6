// Comparing the claims that are written, and those that are accepted.
use crate::same::same;
use crate::source::Source;
use crate::tally::Tally;
use crate::trial::Trial;
use crate::verdicts_said::Graded;
use claims::{Claim, Sign};
use readings::Reading;
use reference::{Claimed, Grade, Said};
use std::alloc::{AllocError, Global};

// The number of a claim; 0 is none.
fn number(n: u32) -> Option<usize> {
    (n != 0).then_some(n as usize)
}

// A function and no `From`: both types are other crates'.
fn plain(claim: Claim) -> Claimed {
    Claimed {
        said: Said {
            place: claim.place as usize,
            node: claim.node as usize,
            holds: matches!(claim.sign, Sign::Holds),
        },
        first: number(claim.first),
        second: number(claim.second),
    }
}

fn plain_list(heap: Global, claims: &[Claim]) -> Result<Vec<Claimed>, AllocError> {
    claims.iter().map(|c| plain(*c)).collect(heap)
}

const BLANK: Claim = Claim {
    place: 7,
    node: 7,
    sign: Sign::Holds,
    first: 7,
    second: 7,
};

// A number near this one. A draw, not a kind.
fn nudged(source: &mut Source, n: u32) -> u32 {
    match source.below(6) {
        0 => 0,
        1 | 2 => n.wrapping_add(1),
        3 | 4 => n.wrapping_sub(1),
        _ => source.below(20),
    }
}

// The claim with a field changed. A draw, not a kind.
fn changed(source: &mut Source, claim: Claim) -> Claim {
    let mut c = claim;
    match source.below(5) {
        0 => c.place = nudged(source, c.place),
        1 => c.node = nudged(source, c.node),
        2 => c.sign = !c.sign,
        3 => c.first = nudged(source, c.first),
        _ => c.second = nudged(source, c.second),
    }
    c
}

// A list made from a written one: some claims changed, and perhaps some at the end left out.
fn some_claims(source: &mut Source, written: &[Claim]) -> Result<Vec<Claim>, AllocError> {
    let mut out = Vec::new(source.heap);
    let often = written.len().saturating_mul(2).saturating_add(1);
    for c in written {
        let odd = source.index(often) < 2;
        out.push(if odd { changed(source, *c) } else { *c })?;
    }
    if source.one_in(8) {
        let left = source.index(written.len());
        out.truncate(left);
    }
    Ok(out)
}

impl<R: Reading> Trial<'_, R> {
    // Whether the library writes what the reference does, into just the room needed and one more.
    pub fn same_written(&self, heap: Global) -> Result<bool, AllocError> {
        let written = self.plain.formula.write_claims(heap, &self.record)?;
        let mut room = vec![in heap; BLANK; written.len().saturating_add(1)]?;
        let count = claims::write(&self.ours, self.trace, room.as_mut_slice());
        let mut listed = plain_list(heap, room.as_slice())?;
        let kept = listed.pop() == Some(plain(BLANK));
        let refusal = self.plain.check_events(self.trace, false);
        let alike = same(count, &refusal, |count, _| {
            count == written.len() && listed.as_slice() == written.as_slice()
        });
        Ok(kept && alike)
    }

    // Checks a list made from the library's own.
    pub fn compare_checks(&self, source: &mut Source, tally: &mut Tally) -> Result<(), AllocError> {
        let total = self
            .record
            .places()
            .saturating_mul(self.plain.formula.root());
        let mut room = vec![in source.heap; BLANK; total]?;
        let _ = claims::write(&self.ours, self.trace, room.as_mut_slice());
        let list = some_claims(source, room.as_slice())?;
        let listed = plain_list(source.heap, list.as_slice())?;
        let meant = self.plain.check_events(self.trace, false).and(
            self.plain
                .formula
                .check_claims(&self.record, listed.as_slice()),
        );
        let said = claims::check(&self.ours, self.trace, list.as_slice());
        let alike = same(said, &meant, |v, kept| v.grade() == Grade::from(*kept));
        tally.counts.checks.note(alike);
        if alike {
            tally.met(&meant)?;
        }
        Ok(())
    }
}
