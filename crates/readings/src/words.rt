// Events as words: code c shows name c alone.
use crate::listed::NameList;

// The most names.
pub(crate) const NAMES: usize = 32;

#[derive(Clone, Copy)]
pub struct Words {
    pub(crate) list: NameList<NAMES>,
}
