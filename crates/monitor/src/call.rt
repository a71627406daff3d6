// A call on a monitor, as a value.
#[derive(Clone, Copy, PartialEq, Eq, Debug)]
pub enum Call {
    Event(u32),
    LookAhead(u32),
    Mark,
    Back,
    Keep,
    Standing,
}
