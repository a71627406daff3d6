// Events as a panel's state: eight levels, and for each whether it was answered.
use crate::listed::NameList;

// The most names.
pub(crate) const NAMES: usize = 8;

#[derive(Clone, Copy)]
pub struct Panel {
    pub(crate) list: NameList<NAMES>,
}
