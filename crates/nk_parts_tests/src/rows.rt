// How the tables of the tests are judged.

use std::process::Abort;

/// Ends the test where something is wrong, and tells its number.
pub(crate) fn none_wrong(rt: &impl Abort, first_wrong: Option<usize>) {
    assert_eq!(rt; first_wrong, None);
}

/// Ends the test where that is not so.
pub(crate) fn right(rt: &impl Abort, is_right: bool) {
    assert!(rt; is_right);
}

/// The number of the first that is not so, or finds no memory.
fn first_not_so(are_so: &[Option<bool>]) -> Option<usize> {
    for (i, is_so) in are_so.iter().enumerate() {
        if *is_so != Some(true) {
            return Some(i);
        }
    }
    None
}

/// Ends the test where one of these is not so, and tells its number.
pub(crate) fn all_right(rt: &impl Abort, are_so: &[Option<bool>]) {
    none_wrong(rt, first_not_so(are_so));
}
