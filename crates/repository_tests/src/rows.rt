//! Rows of tables, as lines of texts.
use std::process::Abort;

/// What is told in a row has to be what is wanted.
pub(crate) fn same(rt: &impl Abort, told: &str, wanted: &str, row: &str) {
    assert_eq!(rt; told, wanted, "{row}");
}
