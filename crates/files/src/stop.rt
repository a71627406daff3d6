// Why a file is not judged to its end: a fault of its own, or want of memory.
use rules::Fault;
use std::alloc::{AllocError, AllocFailed};

#[derive(Drop)]
pub enum Stop {
    Fault(Fault),
    // a fault of the file as a whole, told at line 0
    Whole(Fault),
    Memory(AllocError),
}

impl From<Fault> for Stop {
    fn from(fault: Fault) -> Stop {
        Stop::Fault(fault)
    }
}

impl From<AllocError> for Stop {
    fn from(want: AllocError) -> Stop {
        Stop::Memory(want)
    }
}

impl<T: Drop> From<AllocFailed<T>> for Stop {
    fn from(want: AllocFailed<T>) -> Stop {
        Stop::Memory(want.into())
    }
}
