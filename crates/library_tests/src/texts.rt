//! Paths and names by their text.
use repo_path::{BookName, RepoPath};
use std::alloc::Global;
use std::test::Fail;

pub(crate) fn path(alloc: Global, text: &str) -> Result<RepoPath, Fail> {
    match RepoPath::parse(alloc, text) {
        Ok(path) => Ok(path),
        Err(_) => Err(Fail::from("a path")),
    }
}

pub(crate) fn name(alloc: Global, text: &str) -> Result<BookName, Fail> {
    match BookName::parse(alloc, text) {
        Ok(name) => Ok(name),
        Err(_) => Err(Fail::from("a name")),
    }
}
