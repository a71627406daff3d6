// Reading a rule text from left to right, to its first fault.
use crate::numbered::number_of;
use crate::refusal::{Reason, Refusal, Stop};
use crate::sign::{Sign, Token, is_blank, token_at};
use std::alloc::Global;

// The signs so far, the first appearance of each name, and what may come next.
#[derive(Drop)]
pub struct Scan<'a> {
    pub tokens: Vec<Token<'a>>,
    pub letters: Vec<Token<'a>>,
    open: usize,
    nodes: usize,
    wants_operand: bool,
}

impl<'a> Scan<'a> {
    fn fits(&self, sign: Sign) -> bool {
        match sign {
            Sign::Name | Sign::Truth(_) | Sign::Open | Sign::Prefix(_) => self.wants_operand,
            Sign::Infix(_) => !self.wants_operand,
            Sign::Close => !self.wants_operand && self.open > 0,
        }
    }

    // Counts a parenthesis or a node.
    fn count(&mut self, token: Token) -> Result<(), Refusal> {
        match token.sign {
            Sign::Open => {
                if self.open >= 16 {
                    return Err(Reason::DeepNesting.at(token.at));
                }
                self.open = self.open.saturating_add(1);
            }
            Sign::Close => self.open = self.open.saturating_sub(1),
            _ => {
                if self.nodes >= 64 {
                    return Err(Reason::ManyNodes.at(token.at));
                }
                self.nodes = self.nodes.saturating_add(1);
            }
        }
        Ok(())
    }

    // The number of a name among the letters so far, from 1.
    pub fn letter(&self, name: &[u8]) -> Option<usize> {
        number_of(self.letters.as_slice(), |l| l.text == name)
    }

    fn note_letter(&mut self, token: Token<'a>) -> Result<(), Stop> {
        if token.sign != Sign::Name || self.letter(token.text).is_some() {
            return Ok(());
        }
        if self.letters.len() >= 8 {
            return Err(Reason::ManyLetters.at(token.at).into());
        }
        self.letters.push(token)?;
        Ok(())
    }

    fn take(&mut self, token: Token<'a>) -> Result<(), Stop> {
        if !self.fits(token.sign) {
            return Err(Reason::Misplaced.at(token.at).into());
        }
        self.count(token)?;
        self.note_letter(token)?;
        self.wants_operand = !matches!(token.sign, Sign::Name | Sign::Truth(_) | Sign::Close);
        self.tokens.push(token)?;
        Ok(())
    }
}

pub fn scanned(heap: Global, text: &[u8]) -> Result<Scan<'_>, Stop> {
    if text.len() > 512 {
        return Err(Reason::LongText.at(512).into());
    }
    let mut scan = Scan {
        tokens: Vec::new(heap),
        letters: Vec::new(heap),
        open: 0,
        nodes: 0,
        wants_operand: true,
    };
    // `next` is where the last sign ends; a `while` over what is left would need said that no sign is empty.
    let mut next: usize = 0;
    for (i, b) in text.iter().enumerate() {
        if i >= next && !is_blank(*b) {
            let token = token_at(text, i)?;
            scan.take(token)?;
            next = i.saturating_add(token.text.len());
        }
    }
    if scan.wants_operand || scan.open > 0 {
        return Err(Reason::Misplaced.at(text.len()).into());
    }
    Ok(scan)
}
