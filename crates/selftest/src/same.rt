// Answers of the library beside those of the reference.
use reference::{Refusal, Stop};
use rules::Fault;
use std::alloc::AllocError;

fn same_refusal(fault: Fault, refusal: Refusal) -> bool {
    fault.number() == refusal.reason as u8
        && fault.layer().number() == refusal.layer() as u8
        && fault.place() == refusal.place
}

// Whether both refuse, for the same reason, or both answer, and alike.
pub fn same<T: Drop, U, F: FnOnce(T, &U) -> bool>(
    ours: Result<T, Fault>,
    theirs: &Result<U, Refusal>,
    alike: F,
) -> bool
    requires { F.IsAlwaysCallable alike }
{
    match (ours, theirs) {
        (Ok(a), Ok(b)) => alike(a, b),
        (Err(fault), Err(refusal)) => same_refusal(fault, *refusal),
        _ => false,
    }
}

// An answer or a refusal of the reference, unless memory ran out: it sorts the errors, as no `?` does.
pub fn answered<T>(res: Result<T, Stop>) -> Result<Result<T, Refusal>, AllocError> {
    match res {
        Ok(x) => Ok(Ok(x)),
        Err(Stop::Refusal(why)) => Ok(Err(why)),
        Err(Stop::Memory(why)) => Err(why),
    }
}
