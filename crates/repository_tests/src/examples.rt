//! Changesets by their bytes.
use bonsai::{Commit, Version};
use object_id::Id;
use repo_path::{BookName, RepoPath};
use std::alloc::{AllocError, Global};
use std::test::Fail;

/// A changeset at second 0 of an author of one letter, with a message of so many bytes `x`. Its edits are a text, with a
/// blank between them: `p:abc` sets `p` to the content `abc`, and `-p` deletes it. In the second version `q<p:abc` sets `q`
/// as a copy of the first parent's `p`.
#[derive(Clone, Copy)]
pub(crate) struct Example<'a> {
    pub(crate) version: Version,
    pub(crate) author: u8,
    pub(crate) parents: &'a [Id],
    pub(crate) message: usize,
    pub(crate) edits: &'a str,
}

/// The changeset of the author `a` without parents, message and edits.
pub(crate) fn first<'a>() -> Example<'a> {
    Example {
        version: Version::First,
        author: b'a',
        parents: &[],
        message: 0,
        edits: "",
    }
}

impl Example<'_> {
    /// Its bytes.
    pub(crate) fn bytes(&self, alloc: Global) -> Result<Vec<u8>, AllocError> {
        let mut bytes = Vec::new(alloc);
        put_head(&mut bytes, self.version, self.author, self.parents)?;
        put_message(alloc, &mut bytes, self.message)?;
        put_edits(&mut bytes, self.version, self.edits)?;
        Ok(bytes)
    }

    /// It and its id.
    pub(crate) fn commit(&self, alloc: Global) -> Result<Commit, Fail> {
        let bytes = self.bytes(alloc)?;
        commit_of(alloc, bytes.as_slice())
    }
}

fn commit_of(alloc: Global, bytes: &[u8]) -> Result<Commit, Fail> {
    Ok(Commit::decode(alloc, bytes)?)
}

// The fields before the message.
fn put_head(
    out: &mut Vec<u8>,
    version: Version,
    author: u8,
    parents: &[Id],
) -> Result<(), AllocError> {
    out.extend_from_slice(&[0x43, version.to_byte(), parents.len().min(255) as u8])?;
    for parent in parents {
        out.extend_from_slice(parent.as_bytes())?;
    }
    out.extend_from_slice(&[0, 1, author])?;
    out.extend_from_slice(b"\x00\x00\x00\x00\x00\x00\x00\x00\x00\x00\x00\x00")
}

fn put_message(alloc: Global, out: &mut Vec<u8>, length: usize) -> Result<(), AllocError> {
    put_length(out, length)?;
    let message = vec![in alloc; b'x'; length]?;
    out.extend_from_slice(message.as_slice())
}

// A length in 32 bits.
fn put_length(out: &mut Vec<u8>, length: usize) -> Result<(), AllocError> {
    out.extend_from_slice(&(length.min(1_000_000) as u32).to_be_bytes())
}

fn put_edits(out: &mut Vec<u8>, version: Version, edits: &str) -> Result<(), AllocError> {
    if edits.is_empty() {
        return put_length(out, 0);
    }
    put_length(out, edits.split(' ').count())?;
    for edit in edits.split(' ') {
        put_edit(out, version, edit)?;
    }
    Ok(())
}

fn put_edit(out: &mut Vec<u8>, version: Version, edit: &str) -> Result<(), AllocError> {
    match edit.split_once(":") {
        Some((paths, content)) => put_set(out, version, paths, content.as_bytes()),
        None => put_deletion(out, edit.strip_prefix("-").unwrap_or(edit)),
    }
}

fn put_deletion(out: &mut Vec<u8>, path: &str) -> Result<(), AllocError> {
    put_path(out, path)?;
    Ok(out.push(0)?)
}

fn put_path(out: &mut Vec<u8>, path: &str) -> Result<(), AllocError> {
    out.push(0)?;
    out.push(path.len().min(255) as u8)?;
    out.extend_from_slice(path.as_bytes())
}

fn put_set(
    out: &mut Vec<u8>,
    version: Version,
    paths: &str,
    content: &[u8],
) -> Result<(), AllocError> {
    let (path, source) = paths.split_once("<").unwrap_or((paths, ""));
    put_path(out, path)?;
    out.extend_from_slice(b"\x01\x00\x00\x00\x00\x00\x00\x00\x00")?;
    put_content(out, content)?;
    put_source(out, version, source)
}

// What the first parent's path is that a file was copied from, of which the first version tells nothing.
fn put_source(out: &mut Vec<u8>, version: Version, source: &str) -> Result<(), AllocError> {
    if version == Version::First {
        return Ok(());
    }
    if source.is_empty() {
        return Ok(out.push(0)?);
    }
    out.extend_from_slice(&[1, 0])?;
    put_path(out, source)
}

fn put_content(out: &mut Vec<u8>, content: &[u8]) -> Result<(), AllocError> {
    out.push(content.len().min(255) as u8)?;
    out.extend_from_slice(Id::of(content).as_bytes())
}

/// A path that is spelled so.
pub(crate) fn path(alloc: Global, text: &str) -> Result<RepoPath, Fail> {
    Ok(RepoPath::parse(alloc, text)?)
}

/// The bookmark `main`.
pub(crate) fn main_name(alloc: Global) -> Result<BookName, Fail> {
    name(alloc, "main")
}

/// The name of a bookmark or a caller that is spelled so.
pub(crate) fn name(alloc: Global, text: &str) -> Result<BookName, Fail> {
    Ok(BookName::parse(alloc, text)?)
}

/// The id of these digits.
pub(crate) fn id(hex: &str) -> Result<Id, Fail> {
    Ok(Id::from_hex(hex)?)
}
