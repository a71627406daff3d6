// The grammar, by recursive descent.
ghost use Rattle.std.specs.Prelude.{◌≡◌, suc, ◌+◌, ◌<◌, ◌≤◌, [], MatchOption, MatchResult};
ghost use Rattle.rules.specs.Signs.{stop_at, lex, sign, bad};
ghost use Rattle.rules.specs.Scan.{want};
ghost use Rattle.rules.specs.Rest.{Halts, NextStep, halt, closer, rank_at};
ghost use Rattle.rules.specs.Grammar.{rank_of, rightward};
ghost use Rattle.rules.specs.Names.{names_in};
ghost use Rattle.rules.specs.Descent.{Parsed, Built};
ghost use Rattle.rules.specs.declared.sign.Sign.TheVariants.{Between};
ghost use Rattle.rules.specs.declared.sign.Why.TheVariants.{ManyNodes};

use crate::lex::next_sign;
use crate::node::{Binary, Node};
use crate::rule::{MOST_NODES, Table};
use crate::sign::{Sign, Stop, Why};
use crate::spot::Spot;

// The most parentheses that are open at once.
const DEPTH: usize = 16;

// The level of what binds least, and of what binds most. Levels are numbers, since the descent counts through them.
const LOOSEST: u8 = 1;

const TIGHTEST: u8 = 6;

impl Binary {
    // How tightly it binds.
    fn rank(self) -> u8
        ensures { result ≡ rank_of self }
    {
        match self {
            Binary::Until => 6,
            Binary::And => 5,
            Binary::Xor => 4,
            Binary::Or => 3,
            Binary::Implies => 2,
            Binary::Iff => 1,
        }
    }

    // Whether it groups to the right.
    fn to_right(self) -> bool
        ensures { result ≡ rightward self }
    {
        matches!(self, Binary::Until | Binary::Implies)
    }
}

// What closes a part at `s`, a parenthesis or else the end of the text, where no sign that stands between operands comes next. Answers what is behind.
fn closed(s: &[u8], depth: usize) -> Result<&[u8], Stop>
    requires { rank_at s.now < 1 }
    ensures { MatchResult result (λ r. lex s.now ≡ sign (closer depth) r.now) (λ f. NextStep s.now depth (halt f)) }
{
    let (m, rest) = next_sign(s)?;
    match m {
        Sign::Close if depth > 0 => Ok(rest),
        Sign::End if depth == 0 => Ok(rest),
        _ => Err(Stop::at(Why::Misplaced, s)),
    }
}

// The sign of rank `k` that comes next at `s`, if one does, and what is behind it.
fn joint(k: u8, s: &[u8]) -> Result<Option<(Binary, &[u8])>, Stop>
    requires { (1 ≤ k) × (rank_at s.now ≤ k) }
    ensures { MatchResult result (λ o. MatchOption o (rank_at s.now < k) (λ p. (lex s.now ≡ sign (Between p.0) p.1.now) × (rank_of p.0 ≡ k))) (λ f. lex s.now ≡ bad f) }
{
    match next_sign(s)? {
        (Sign::Between(b), after) if b.rank() == k => Ok(Some((b, after))),
        _ => Ok(None),
    }
}

impl Spot {
    // Whether a sign at `s` may make a node.
    fn room(self, s: &[u8], table: &Table) -> Result<(), Stop>
        ensures { MatchResult result (λ _. table.now.size + self.pending < MOST_NODES) (λ f. (MOST_NODES ≤ table.now.size + self.pending) × (f ≡ stop_at ManyNodes s.now)) }
    {
        // Subtracts, since nothing bounds `pending`: a sum could be too large.
        if self.pending >= MOST_NODES - table.size {
            return Err(Stop::at(Why::ManyNodes, s));
        }
        Ok(())
    }

    // Behind a sign whose node is to come.
    fn behind(self) -> Spot
        requires { self.pending < MOST_NODES }
        ensures { result ≡ record { total = self.total; depth = self.depth; pending = self.pending + 1 } }
    {
        Spot {
            pending: self.pending + 1,
            ..self
        }
    }

    // An operand at `s`. Answers its node's number, and what is behind it.
    #[cycle(level_operand_tighter)]
    fn operand<'a>(self, s: &'a [u8], table: &mut Table) -> Result<(u8, &'a [u8]), Stop>
        ensures { MatchResult result (λ p. Parsed self.total 7 s.now p.1.now self.depth self.pending table.old table.new p.0) (λ f. Halts s.now (want self.depth (table.old.size + self.pending) (names_in table.old)) f) }
    {
        let (m, rest) = next_sign(s)?;
        match m {
            Sign::Name(name) => {
                self.room(s, table)?;
                let i = table.number(self.total, s, name)?;
                Ok((table.put(Node::Letter(i)), rest))
            }
            Sign::Truth(v) => {
                self.room(s, table)?;
                Ok((table.put(Node::Truth(v)), rest))
            }
            Sign::Before(u) => {
                self.room(s, table)?;
                let (a, end) = self.behind().operand(rest, table)?;
                Ok((table.put(Node::Before(u, a)), end))
            }
            Sign::Open => {
                if self.depth >= DEPTH {
                    return Err(Stop::at(Why::DeepNesting, s));
                }
                let inside = Spot {
                    depth: self.depth + 1,
                    ..self
                };
                let (a, end) = inside.level(LOOSEST, rest, table)?;
                let after = closed(end, inside.depth)?;
                Ok((a, after))
            }
            _ => Err(Stop::at(Why::Misplaced, s)),
        }
    }

    // What binds tighter than level `k`.
    #[cycle(level_operand_tighter)]
    fn tighter<'a>(self, k: u8, s: &'a [u8], table: &mut Table) -> Result<(u8, &'a [u8]), Stop>
        requires { (1 ≤ k) × (k ≤ TIGHTEST) }
        ensures { MatchResult result (λ p. Parsed self.total (suc k) s.now p.1.now self.depth self.pending table.old table.new p.0 × (rank_at p.1.now < suc k)) (λ f. Halts s.now (want self.depth (table.old.size + self.pending) (names_in table.old)) f) }
    {
        if k == TIGHTEST {
            self.operand(s, table)
        } else {
            self.level(k + 1, s, table)
        }
    }

    // Level `k` of the grammar: operands of what binds tighter, with the sign of rank `k` between them.
    #[cycle(level_operand_tighter)]
    fn level<'a>(self, k: u8, s: &'a [u8], table: &mut Table) -> Result<(u8, &'a [u8]), Stop>
        requires { (1 ≤ k) × (k ≤ TIGHTEST) }
        ensures { MatchResult result (λ p. Parsed self.total k s.now p.1.now self.depth self.pending table.old table.new p.0 × (rank_at p.1.now < k)) (λ f. Halts s.now (want self.depth (table.old.size + self.pending) (names_in table.old)) f) }
    {
        let (mut left, mut rest) = self.tighter(k, s, table)?;
        while let Some((b, after)) = joint(k, rest)? {
            self.room(rest, table)?;
            let behind = self.behind();
            let (right, end) = if b.to_right() {
                behind.level(k, after, table)?
            } else {
                behind.tighter(k, after, table)?
            };
            left = table.put(Node::Between(b, left, right));
            rest = end;
        }
        Ok((left, rest))
    }
}

// The table of the rule that a text says, or where its reading stops.
pub(crate) fn parse(text: &[u8]) -> Result<Table, Stop>
    ensures { MatchResult result (λ b. Built text.now b) (λ f. Halts text.now (want 0 0 []) f) }
{
    let mut table = Table::empty();
    let front = Spot {
        total: text.len(),
        depth: 0,
        pending: 0,
    };
    let (_, rest) = front.level(LOOSEST, text, &mut table)?;
    closed(rest, front.depth)?;
    Ok(table)
}
