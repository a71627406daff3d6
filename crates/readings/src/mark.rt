// What a code says of a name.
#[derive(Clone, Copy, PartialEq, Eq, Debug)]
pub enum Mark {
    Off,
    On,
    Doubt,
}
