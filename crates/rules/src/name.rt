// A name: its bytes, how many they are, and zeros behind them. A buffer with its length, since nothing here is on a heap.

// The most bytes of a name.
pub(crate) const NAME_BYTES: usize = 12;

// No derived ==: `same_name` alone compares names.
#[derive(Clone, Copy, Debug)]
pub struct Name {
    pub(crate) bytes: [u8; NAME_BYTES],
    pub(crate) len: u8,
}
