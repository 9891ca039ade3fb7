//! The rule that a line spells.
ghost use Rattle.std.specs.Prelude.{◌≡◌, option_map, position, IfOk};
ghost use Rattle.std.specs.List.{before_first, after_first};
ghost use Rattle.policy_model.specs.Grammar as grammar;
ghost use Rattle.land_policy.specs.View.{rule_view, elements_in};

use crate::rule::Rule;
use repo_path::{BookName, NameFault, PathFault, RepoPath};
use std::alloc::{AllocError, Global};
use std::str;

/// The rule of a line, which has no line feed. None where it breaks the grammar.
pub(crate) fn rule_of(alloc: Global, line: &[u8]) -> Result<Option<Rule>, AllocError>
    ensures { IfOk result (λ rule. option_map rule_view rule ≡ grammar.rule_of line.now) }
{
    let (verb, rest) = word_and_rest(line);
    let (name, path) = word_and_rest(rest);
    let Some(allows) = allows_of(verb) else {
        return Ok(None);
    };
    let Some(name) = name_of(alloc, name)? else {
        return Ok(None);
    };
    let Some(path) = path_of(alloc, path)? else {
        return Ok(None);
    };
    Ok(Some(Rule { allows, name, path }))
}

// What stands before the first space, and after it.
fn word_and_rest(bytes: &[u8]) -> (&[u8], &[u8])
    ensures word { result.0.now ≡ before_first grammar.is_space bytes.now }
    ensures rest { result.1.now ≡ after_first grammar.is_space bytes.now }
{
    match first_space(bytes) {
        Some(at) => (&bytes[..at], &bytes[at + 1..]),
        None => (bytes, &[]),
    }
}

// The place of the first space.
fn first_space(bytes: &[u8]) -> Option<usize>
    ensures { result ≡ position grammar.is_space bytes.now }
{
    bytes.iter().position(|b| *b == b' ')
}

// What the first word says.
fn allows_of(word: &[u8]) -> Option<bool>
    ensures { result ≡ grammar.allows_of word.now }
{
    if word == b"allow".as_slice() {
        return Some(true);
    }
    if word == b"deny".as_slice() {
        return Some(false);
    }
    None
}

// Whom the second word names: nobody alone, where it is a star.
fn name_of(alloc: Global, word: &[u8]) -> Result<Option<Option<BookName>>, AllocError>
    ensures { IfOk result (λ name. name ≡ grammar.name_of word.now) }
{
    if word == b"*".as_slice() {
        return Ok(Some(None));
    }
    let Ok(text) = str::from_utf8(word) else {
        return Ok(None);
    };
    match BookName::parse(alloc, text) {
        Ok(name) => Ok(Some(Some(name))),
        Err(NameFault::BadName { at: _ }) => Ok(None),
        Err(NameFault::Memory) => Err(AllocError),
    }
}

// The path that the rest of a line is: none where it is a slash.
fn path_of(alloc: Global, text: &[u8]) -> Result<Option<Option<RepoPath>>, AllocError>
    ensures { IfOk result (λ path. option_map elements_in path ≡ grammar.elements_of text.now) }
{
    if text == b"/".as_slice() {
        return Ok(Some(None));
    }
    match RepoPath::from_bytes(alloc, text) {
        Ok(path) => Ok(Some(Some(path))),
        Err(PathFault::BadPath { at: _ }) => Ok(None),
        Err(PathFault::Memory) => Err(AllocError),
    }
}
