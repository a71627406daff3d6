// Why something is refused. A case holds the place where one is not fixed by the case itself.
#[derive(Clone, Copy, PartialEq, Eq, Debug)]
pub enum Fault {
    // a rule's text has more than 512 bytes
    LongText,
    // no sign begins at this byte
    NoSign(usize),
    // the sign at this byte, or the end, cannot stand here
    Misplaced(usize),
    // the name at this byte has more than 12 bytes
    LongName(usize),
    // the parenthesis at this byte is the 17th open at once
    DeepNesting(usize),
    // the sign at this byte makes the 65th node
    ManyNodes(usize),
    // the name at this byte is the 9th letter
    ManyLetters(usize),
    // a list of names goes on to this one, which is too many
    ManyNames(usize),
    // this name of a list is no name
    NotAName(usize),
    // this name of a list stands there before
    RepeatedName(usize),
    // the letter that first appears at this byte is no name of the reading
    AbsentName(usize),
    // a record goes on to event 4,096
    ManyEvents,
    // the code of this event is not below the reading's number of codes
    HighCode(usize),
    // a letter of the rule is in doubt at this event, and the verdict takes no doubt
    InDoubt(usize),
    // lent memory is shorter than this length
    ShortBuffer(usize),
    // a rule has this many obligations, which is too many to monitor
    ManyObligations(usize),
    // eight marks are set already
    NinthMark,
    // no mark is set
    NoMark,
    // the claim of this number is not supported
    Unsupported(usize),
    // a list of so many claims does not end with the whole rule at the first place
    BadEnd(usize),
    // a line of a file is out of form
    OutOfForm,
}

// Where a fault is found.
#[derive(Clone, Copy, PartialEq, Eq, Debug)]
pub enum Layer {
    Signs = 1,
    Grammar = 2,
    Names = 3,
    Traces = 4,
    Files = 5,
}
