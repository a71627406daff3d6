// Rule texts and names at random.
use crate::source::Source;
use std::alloc::{AllocError, Global};

const PREFIXES: [&[u8]; 4] = [b"!", b"[]", b"<>", b"o "];

const JOINS: [&[u8]; 6] = [b" U ", b"/\\", b"++", b"\\/", b"->", b"<->"];

pub const NAMES: [&[u8]; 12] = [
    b"a",
    b"b",
    b"c",
    b"d",
    b"lost",
    b"x_1",
    b"abcdefghijkl",
    b"oo",
    b"truer",
    b"u",
    b"E",
    b"q9",
];

// Bytes that make a text wrong in many ways.
const SPOILERS: &[u8] = b"!()[]<>-+/\\ \tab1_oU\n\r~\0\xff";

// As many bytes as a name may have.
const LONG: &[u8] = b"abcdefghijkl";

// Entries of lists of names, good and bad.
const ENTRIES: [&[u8]; 12] = [
    b"a",
    b"b",
    b"c",
    b"d",
    b"lost",
    b"x_1",
    b"",
    b"U",
    b"true",
    b"1a",
    b"abcdefghijklm",
    b"a b",
];

pub fn name(index: usize) -> &'static [u8] {
    NAMES[index % NAMES.len()]
}

// How a text is made: about so many signs, of so many names.
#[derive(Clone, Copy)]
pub struct Shape {
    pub signs: u32,
    pub names: usize,
    // whether parentheses are opened often and closed only at the end
    pub deep: bool,
}

// A text that is written, and what may come next in it.
#[derive(Drop)]
struct Draft {
    bytes: Vec<u8>,
    open: usize,
    wants_operand: bool,
}

impl Draft {
    fn put(&mut self, source: &mut Source, sign: &[u8]) -> Result<(), AllocError> {
        self.bytes.extend_from_slice(sign)?;
        if source.one_in(4) {
            self.bytes.push(b' ')?;
        }
        Ok(())
    }

    fn operand(&mut self, source: &mut Source, names: usize) -> Result<(), AllocError> {
        self.wants_operand = false;
        if source.one_in(16) {
            let sign: &[u8] = if source.one_in(2) { b"true" } else { b"false" };
            return self.put(source, sign);
        }
        let i = source.index(names);
        self.put(source, name(i))
    }

    // The beginning of an operand.
    fn begin(&mut self, source: &mut Source, shape: Shape) -> Result<(), AllocError> {
        match source.below(if shape.deep { 2 } else { 8 }) {
            0 => {
                self.open = self.open.saturating_add(1);
                self.put(source, b"(")
            }
            1..=3 => {
                let prefix = source.pick(&PREFIXES);
                self.put(source, prefix)
            }
            _ => self.operand(source, shape.names),
        }
    }

    // What comes behind an operand.
    fn go_on(&mut self, source: &mut Source, shape: Shape) -> Result<(), AllocError> {
        if self.open > 0 && !shape.deep && source.one_in(3) {
            self.open = self.open.saturating_sub(1);
            return self.put(source, b")");
        }
        self.wants_operand = true;
        let join = source.pick(&JOINS);
        self.put(source, join)
    }

    fn end(&mut self, source: &mut Source, names: usize) -> Result<(), AllocError> {
        if self.wants_operand {
            self.operand(source, names)?;
        }
        for _ in 0..self.open {
            self.put(source, b")")?;
        }
        Ok(())
    }
}

// A rule text without fault, but that it may be too long or have too much in it.
pub fn rule_text(source: &mut Source, shape: Shape) -> Result<Vec<u8>, AllocError> {
    let mut draft = Draft {
        bytes: Vec::new(source.heap),
        open: 0,
        wants_operand: true,
    };
    for _ in 0..shape.signs {
        if draft.wants_operand {
            draft.begin(source, shape)?;
        } else {
            draft.go_on(source, shape)?;
        }
    }
    draft.end(source, shape.names)?;
    let Draft { bytes, .. } = draft;
    Ok(bytes)
}

// What becomes of the byte that is spoiled. A draw, not a kind.
fn put_spoiled(out: &mut Vec<u8>, source: &mut Source, byte: u8) -> Result<(), AllocError> {
    match source.below(4) {
        0 => {}
        1 => out.push(source.pick(SPOILERS))?,
        2 => {
            out.push(source.pick(SPOILERS))?;
            out.push(byte)?;
        }
        _ => {
            out.extend_from_slice(LONG)?;
            out.push(byte)?;
        }
    }
    Ok(())
}

// The text with a byte changed, put in or left out, or with a name put in.
pub fn spoiled(source: &mut Source, text: &[u8]) -> Result<Vec<u8>, AllocError> {
    let at = source.index(text.len());
    let mut out = Vec::new(source.heap);
    for (i, b) in text.iter().enumerate() {
        if i == at {
            put_spoiled(&mut out, source, *b)?;
        } else {
            out.push(*b)?;
        }
    }
    Ok(out)
}

// An entry of a list of names. No closure, as one that gives a reference didn't prove.
fn entry(source: &mut Source) -> &'static [u8] {
    source.pick(&ENTRIES)
}

// A list of names, most often a good one.
pub fn name_list(source: &mut Source) -> Result<Vec<&'static [u8]>, AllocError> {
    if source.one_in(3) {
        let count = source.below(12);
        return source.several(count, entry);
    }
    let first = source.index(12);
    (0..source.index(10))
        .map(|i| name(first.saturating_add(i)))
        .collect(source.heap)
}

// The first names, so many.
pub fn first_names(heap: Global, count: usize) -> Result<Vec<&'static [u8]>, AllocError> {
    (0..count).map(name).collect(heap)
}
