//! Paths and names by tables.
use crate::bytes::letters;
use repo_path::{BookName, NameFault, PathFault, RepoPath, is_element};
use std::alloc::{AllocError, Global};
use std::cmp::Ordering;
use std::process::Abort;

fn place_in_path(alloc: Global, text: &str) -> Option<usize> {
    match RepoPath::parse(alloc, text) {
        Err(PathFault::BadPath { at }) => Some(at),
        Ok(_) | Err(PathFault::Memory) => None,
    }
}

fn place_in_name(alloc: Global, text: &str) -> Option<usize> {
    match BookName::parse(alloc, text) {
        Err(NameFault::BadName { at }) => Some(at),
        Ok(_) | Err(NameFault::Memory) => None,
    }
}

fn accepts(element: &[u8]) -> bool {
    is_element(element)
}

fn is_path(alloc: Global, text: &str) -> bool {
    match RepoPath::parse(alloc, text) {
        Ok(path) => path.copy(alloc).is_ok_and(|copy| copy.as_str() == text),
        Err(_) => false,
    }
}

fn is_name(alloc: Global, text: &str) -> bool {
    match BookName::parse(alloc, text) {
        Ok(name) => name.copy(alloc).is_ok_and(|copy| copy.as_str() == text),
        Err(_) => false,
    }
}

fn path(alloc: Global, text: &str) -> Option<RepoPath> {
    RepoPath::parse(alloc, text).ok()
}

fn name(alloc: Global, text: &str) -> Option<BookName> {
    BookName::parse(alloc, text).ok()
}

// Their order, whether they are comparable, and whether the left one lies above.
fn relation(alloc: Global, left: &str, right: &str) -> Option<(Ordering, bool, bool)> {
    let left = path(alloc, left)?;
    let right = path(alloc, right)?;
    Some((
        left.cmp(&right),
        left.comparable(&right),
        left.is_strict_prefix(&right),
    ))
}

fn order_of_names(alloc: Global, left: &str, right: &str) -> Option<Ordering> {
    let left = name(alloc, left)?;
    let right = name(alloc, right)?;
    Some(left.cmp(&right))
}

// Sixteen elements of 255 letters, with slashes between.
fn longest_path(alloc: Global) -> Result<String, AllocError> {
    let mut longest = letters(alloc, 255)?;
    for _ in 0..15 {
        longest.push('/')?;
        longest.push_str(letters(alloc, 255)?.as_str())?;
    }
    Ok(longest)
}

#[test]
fn elements(rt: HostRuntime) {
    for text in ["a", "...", ".a", "a.", "-", " ", "\u{e9}"] {
        assert!(rt; accepts(text.as_bytes()), "{text}");
    }
    for text in ["", ".", "..", "a/b", "/", "a\n", "\0"] {
        assert!(rt; !accepts(text.as_bytes()), "{text}");
    }
    assert!(rt; !accepts(&[0xFF]));
}

#[test]
fn faults_of_paths(rt: HostRuntime) {
    for (text, at) in [
        ("", 0),
        ("/a", 0),
        ("a/", 2),
        ("a//b", 2),
        ("ab/./c", 3),
        ("ab/../c", 3),
        ("a/b/c\n", 4),
        ("a\0/..", 0),
    ] {
        assert_eq!(rt; place_in_path(rt.alloc(), text), Some(at), "{text}");
    }
}

#[test]
fn faults_of_names(rt: HostRuntime) {
    for (text, at) in [("", 0), ("a b", 1), ("caf\u{e9}", 3), ("a/b", 1)] {
        assert_eq!(rt; place_in_name(rt.alloc(), text), Some(at), "{text}");
    }
}

fn is_name_of_letters(alloc: Global, count: usize) -> Result<bool, AllocError> {
    let text = letters(alloc, count)?;
    Ok(is_name(alloc, text.as_str()))
}

fn check_longest_path(rt: &impl Abort, alloc: Global) -> Result<(), AllocError> {
    let longest = longest_path(alloc)?;
    assert_eq!(rt; longest.len(), 4095);
    assert!(rt; is_path(alloc, longest.as_str()));
    Ok(())
}

#[test]
fn longest_paths_and_names(rt: HostRuntime) -> Result<(), AllocError> {
    let alloc = rt.alloc();
    check_longest_path(&rt, alloc)?;
    assert!(rt; is_path(alloc, "a"));
    assert!(rt; is_name_of_letters(alloc, 128)?);
    assert!(rt; is_name(alloc, "Z_9.-"));
    Ok(())
}

fn place_in_letters(alloc: Global, count: usize) -> Result<Option<usize>, AllocError> {
    let text = letters(alloc, count)?;
    Ok(place_in_path(alloc, text.as_str()))
}

fn place_in_name_of_letters(alloc: Global, count: usize) -> Result<Option<usize>, AllocError> {
    let text = letters(alloc, count)?;
    Ok(place_in_name(alloc, text.as_str()))
}

#[test]
fn paths_and_names_that_are_too_long(rt: HostRuntime) -> Result<(), AllocError> {
    let alloc = rt.alloc();
    assert_eq!(rt; place_in_letters(alloc, 256)?, Some(0));
    assert_eq!(rt; place_in_letters(alloc, 4097)?, Some(4096));
    assert_eq!(rt; place_in_name_of_letters(alloc, 129)?, Some(128));
    Ok(())
}

#[test]
fn order_of_paths(rt: HostRuntime) {
    for (left, right, order, comparable, above) in [
        ("a", "a", Ordering::Equal, true, false),
        ("a", "a/b", Ordering::Less, true, true),
        ("a/b", "a", Ordering::Greater, true, false),
        ("a", "ab", Ordering::Less, false, false),
        ("a/b", "a.b", Ordering::Less, false, false),
        ("a!", "a/b", Ordering::Greater, false, false),
        ("a/b", "a/c", Ordering::Less, false, false),
        ("a/b/c", "a/b", Ordering::Greater, true, false),
        ("a/b/c", "a/c", Ordering::Less, false, false),
    ] {
        let wanted = Some((order, comparable, above));
        assert!(rt;
            relation(rt.alloc(), left, right) == wanted,
            "{left} {right}"
        );
    }
    let names = order_of_names(rt.alloc(), "main", "Z_9.-");
    assert_eq!(rt; names, Some(Ordering::Greater));
}
