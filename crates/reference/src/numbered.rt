// Lists whose entries are numbered from 1.

// The entry of this number, if there is one.
pub(crate) fn numbered<T>(list: &[T], number: usize) -> Option<&T> {
    list.get(number.checked_sub(1)?)
}

// The number of the first entry that is so, if there is one.
pub(crate) fn number_of<T, F: FnMut(&T) -> bool>(list: &[T], is_so: F) -> Option<usize>
    requires { F.IsAlwaysCallable is_so }
{
    let i = list.iter().position(is_so)?;
    Some(i.saturating_add(1))
}
