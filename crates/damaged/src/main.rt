// Takes the library's own claims apart: of every list it changes one field of one claim at a time. The check must refuse
// such a list, or accept it with the verdict of the list that was changed.
#![tactic(auto)]

mod changes;

use anyhow::anyhow;
use changes::changes;
use claims::{Claim, check, write};
use readings::{BoundRule, Named, Words};
use rules::Rule;
use verdicts::YesNo;

// How many changed lists were refused, accepted with the same verdict, and accepted with another.
#[derive(Clone, Copy, Default)]
struct Tally {
    refused: u32,
    same: u32,
    other: u32,
}

impl Tally {
    fn note(&mut self, answer: Option<YesNo>, verdict: YesNo) {
        let count = match answer {
            None => &mut self.refused,
            Some(v) if v == verdict => &mut self.same,
            Some(_) => &mut self.other,
        };
        *count = count.saturating_add(1);
    }
}

// A rule on a trace, and its verdict there.
#[derive(Clone, Copy)]
struct Subject<'a> {
    bound: &'a BoundRule<Words>,
    trace: &'a [u32],
    verdict: YesNo,
}

impl<'a> Subject<'a> {
    // All changes of the claim with this index.
    fn try_claim(&self, claims: &mut [Claim], index: usize, tally: &mut Tally) {
        let Some(&claim) = claims.get(index) else {
            return;
        };
        for changed in changes(claim) {
            claims[index] = changed;
            tally.note(check(self.bound, self.trace, claims).ok(), self.verdict);
        }
        claims[index] = claim;
    }

    // All changes of all claims.
    fn try_all(&self, claims: &mut [Claim]) -> Tally {
        let mut tally = Tally::default();
        // by index: the check reads the whole list, which `iter_mut` would hold
        for index in 0..claims.len() {
            self.try_claim(claims, index, &mut tally);
        }
        tally
    }
}

fn try_rule(rt: &HostRuntime, text: &str, trace: &[u32]) -> anyhow::Result<()> {
    let names: [&[u8]; 3] = [b"a", b"b", b"c"];
    let mut rule = Rule::new();
    rule.read(text.as_bytes())
        .map_err(|_| anyhow!("not a rule"))?;
    let bound = BoundRule::new(rule, Words::new(&names));
    let mut claims = vec![in rt.alloc(); Claim::BLANK; 512]?;
    let total = write(&bound, trace, claims.as_mut_slice()).map_err(|_| anyhow!("not written"))?;
    claims.truncate(total);
    let verdict = check(&bound, trace, claims.as_slice()).map_err(|_| anyhow!(
        "its own claims are refused"
    ))?;
    let subject = Subject {
        bound: &bound,
        trace,
        verdict,
    };
    let Tally {
        refused,
        same,
        other,
    } = subject.try_all(claims.as_mut_slice());
    println!(rt;
        "{text}: {refused} refused, {same} accepted as before, {other} accepted otherwise"
    )?;
    Ok(())
}

fn main(rt: HostRuntime) -> anyhow::Result<()> {
    try_rule(&rt, "[] (a -> (!b U c))", &[1, 3, 2, 1, 2, 3])?;
    try_rule(&rt, "[] (a -> (!b U c))", &[1, 3, 2])?;
    try_rule(&rt, "a U b U c", &[1, 1, 2, 3])?;
    try_rule(&rt, "a U b", &[1, 1, 0])?;
    try_rule(&rt, "o a \\/ <> b /\\ !c", &[2, 1, 0])?;
    try_rule(&rt, "(a ++ b) <-> (true -> [] c)", &[3, 1])?;
    try_rule(&rt, "<> [] false", &[])
}
