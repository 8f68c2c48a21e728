// How the tables of the tests are judged, and bytes that rows spell in hexadecimal.

use std::alloc::Global;
use std::process::Abort;

/// A row of a table.
pub trait Row {
    /// Whether what is tested answers as the row says.
    fn is_right(&self, alloc: Global) -> bool;
}

// The number of the first row that is wrong, counted from 0.
fn first_wrong<R: Row>(alloc: Global, rows: &[R]) -> Option<usize> {
    let mut number: usize = 0;
    for row in rows {
        if !row.is_right(alloc) {
            return Some(number);
        }
        number = number.wrapping_add(1);
    }
    None
}

/// Ends the test where something is wrong, and tells its number.
pub fn none_wrong(rt: &impl Abort, first_wrong: Option<usize>) {
    assert_eq!(rt; first_wrong, None);
}

/// Ends the test where a row is wrong, and tells its number.
pub fn all_right<R: Row>(rt: &impl Abort, alloc: Global, rows: &[R]) {
    none_wrong(rt, first_wrong(alloc, rows));
}

/// Ends the test where that is not so.
pub fn right(rt: &impl Abort, is_right: bool) {
    assert!(rt; is_right);
}

fn digit(c: u8) -> Option<u8> {
    match c {
        b'0'..=b'9' => Some(c - b'0'),
        b'a'..=b'f' => Some(c - b'a' + 10),
        _ => None,
    }
}

/// The bytes that are spelled by pairs of hexadecimal digits, with spaces between some.
pub fn bytes(alloc: Global, pairs: &str) -> Option<Vec<u8>> {
    let mut bytes = Vec::new(alloc);
    let mut high = None;
    for c in pairs.as_bytes() {
        match (high, digit(*c)) {
            (None, Some(digit)) => high = Some(digit),
            (Some(first), Some(second)) => {
                bytes.push(first << 4 | second).ok()?;
                high = None;
            }
            (_, None) => {}
        }
    }
    Some(bytes)
}
