// A rule as a list of nodes, operands first.
use crate::refusal::Stop;
use crate::scan::{Scan, scanned};
use crate::sign::{Infix, Prefix, Sign, Token};
use std::alloc::{AllocError, Global};

// A name by the number of its letter, a constant, or an operator on the nodes of these numbers. All count from 1.
#[derive(Clone, Copy, PartialEq, Eq, Debug)]
pub enum Node {
    Letter(usize),
    Truth(bool),
    Prefix(Prefix, usize),
    Infix(Infix, usize, usize),
}

// A name, and the byte at which it first appears.
#[derive(Drop)]
pub struct Letter {
    pub name: Vec<u8>,
    pub at: usize,
}

// Claims are about nodes by their numbers, so the nodes lie in a list and are no boxes.
#[derive(Drop)]
pub struct Formula {
    pub nodes: Vec<Node>,
    pub letters: Vec<Letter>,
}

impl Formula {
    // The number of the whole rule.
    pub fn root(&self) -> usize {
        self.nodes.len()
    }
}

// The nodes that stand, and those of them that are no operand yet.
#[derive(Drop)]
struct Stand {
    nodes: Vec<Node>,
    loose: Vec<usize>,
}

// What stands, and the operators and parentheses that wait for an operand.
#[derive(Drop)]
struct Yard {
    stand: Stand,
    waiting: Vec<Sign>,
}

// Whether a sign that waits has all its operands before the next sign.
fn goes_first(waiting: Sign, next: Sign) -> bool {
    match (waiting, next) {
        (Sign::Open, _) => false,
        (Sign::Infix(a), Sign::Infix(b)) => a < b || (a == b && !b.groups_right()),
        _ => true,
    }
}

impl Stand {
    fn settle(&mut self, node: Node) -> Result<(), AllocError> {
        self.nodes.push(node)?;
        self.loose.push(self.nodes.len())?;
        Ok(())
    }

    // Settles an operator on the last loose nodes, of which a scanned text leaves it enough.
    fn apply(&mut self, operator: Sign) -> Result<(), AllocError> {
        match (operator, self.loose.pop()) {
            (Sign::Prefix(p), Some(x)) => self.settle(Node::Prefix(p, x)),
            (Sign::Infix(i), Some(y)) => match self.loose.pop() {
                Some(x) => self.settle(Node::Infix(i, x, y)),
                None => Ok(()),
            },
            _ => Ok(()),
        }
    }
}

impl Yard {
    // Settles the waiting operators that have their operands before the next sign.
    fn settle_before(&mut self, next: Sign) -> Result<(), AllocError> {
        while let Some(operator) = self.waiting.pop_if(|top| goes_first(*top, next)) {
            self.stand.apply(operator)?;
        }
        Ok(())
    }

    // Takes in the next sign of a scanned text, which has a letter for each name.
    fn take(&mut self, scan: &Scan, token: Token) -> Result<(), AllocError> {
        let sign = token.sign;
        match sign {
            Sign::Name => {
                if let Some(letter) = scan.letter(token.text) {
                    self.stand.settle(Node::Letter(letter))?;
                }
            }
            Sign::Truth(value) => self.stand.settle(Node::Truth(value))?,
            Sign::Close => {
                self.settle_before(sign)?;
                let _ = self.waiting.pop();
            }
            Sign::Infix(_) => {
                self.settle_before(sign)?;
                self.waiting.push(sign)?;
            }
            Sign::Open | Sign::Prefix(_) => self.waiting.push(sign)?,
        }
        Ok(())
    }
}

fn nodes_of(heap: Global, scan: &Scan) -> Result<Vec<Node>, AllocError> {
    let mut yard = Yard {
        stand: Stand {
            nodes: Vec::new(heap),
            loose: Vec::new(heap),
        },
        waiting: Vec::new(heap),
    };
    for token in scan.tokens.iter() {
        yard.take(scan, *token)?;
    }
    yard.settle_before(Sign::Close)?;
    let Yard {
        stand: Stand { nodes, .. },
        ..
    } = yard;
    Ok(nodes)
}

fn letters_of(heap: Global, scan: &Scan) -> Result<Vec<Letter>, AllocError> {
    let mut letters = Vec::new(heap);
    for l in scan.letters.iter() {
        letters.push(Letter {
            name: Vec::from_slice(heap, l.text)?,
            at: l.at,
        })?;
    }
    Ok(letters)
}

// READS A RULE TEXT.
pub fn read_formula(heap: Global, text: &[u8]) -> Result<Formula, Stop> {
    let scan = scanned(heap, text)?;
    Ok(Formula {
        nodes: nodes_of(heap, &scan)?,
        letters: letters_of(heap, &scan)?,
    })
}
