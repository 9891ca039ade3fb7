//! Rows of tables, as lines of texts.
use std::alloc::{AllocError, Global};
use std::process::Abort;

/// The first field of a row, and those after it.
pub(crate) fn cut(row: &str) -> (&str, &str) {
    row.split_once(" | ").unwrap_or((row, ""))
}

/// The numbers that these digits are.
pub(crate) fn numbers(alloc: Global, digits: &str) -> Result<Vec<u64>, AllocError> {
    let mut numbers = Vec::new(alloc);
    for digit in digits.as_bytes() {
        numbers.push(u64::from(digit.wrapping_sub(b'0')))?;
    }
    Ok(numbers)
}

/// What is told in a row has to be what is wanted.
pub(crate) fn same(rt: &impl Abort, told: &str, wanted: &str, row: &str) {
    assert_eq!(rt; told, wanted, "{row}");
}
