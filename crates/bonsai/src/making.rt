//! Changesets of fields that were made and not read.
ghost use Rattle.std.specs.Prelude.{◌≡◌, ◌≤◌, ◌&&◌, nat_le, length, None, Some, true, IfOk, IfErr, IsTrue};
ghost use Rattle.std.specs.FinMap.{is_sorted};
ghost use Rattle.changeset_model.specs.Path.{path_cmp};
ghost use Rattle.changeset_model.specs.Changeset as model;
ghost use Rattle.bonsai.specs.Making.{IsFault, IsEditsFault, keeps_size as has_size, keep_sizes as have_sizes, keeps_source as has_source, keep_sources as have_sources};
ghost use Rattle.bonsai.specs.Versions.{version_view};
ghost use Rattle.bonsai.specs.View.{source_view, edit_view, edits_view, fields_view};
ghost use Rattle.bonsai.specs.declared.making.FieldsFault.TheVariants.{Memory};

use crate::change::Change;
use crate::changeset::Changeset;
use crate::copy_source::CopySource;
use crate::edit::Edit;
use crate::fields::Fields;
use crate::limits::{LONGEST_AUTHOR, LONGEST_MESSAGE, MOST_EDITS, MOST_SIZE};
use crate::text::line_of;
use crate::version::Version;
use byte_fields::is_text;
use object_id::Id;
use repo_path::RepoPath;
use std::alloc::{AllocError, Global};
use thiserror::Error;

/// Why fields make no changeset.
#[derive(Debug, Drop, Error)]
pub enum FieldsFault {
    /// There are more than `MOST_PARENTS` parents, or the second is the first again.
    #[error("more than two parents, or one of them twice")]
    BadParents,
    /// The author has no byte, more than `LONGEST_AUTHOR`, or one of the bytes 00 and 0A.
    #[error("the author is empty, too long or of several lines")]
    BadAuthor,
    /// The message has more than `LONGEST_MESSAGE` bytes.
    #[error("the message is too long")]
    BadMessage,
    /// There are more than `MOST_EDITS` edits.
    #[error("too many edits")]
    TooManyEdits,
    /// A set names a size of more than `MOST_SIZE` bytes.
    #[error("a file is too large")]
    TooLarge,
    /// A copy source stands in the first version, or names a parent that isn't there.
    #[error("a file is copied from a parent that is not there")]
    BadSource,
    /// A path isn't greater than the one before it.
    #[error("the paths of the edits do not rise")]
    Unordered,
    /// A set path lies under another set path.
    #[error("the path {long} that is set lies under the path {short} that is set")]
    SelfConflict {
        /// The shortest path above the other.
        short: RepoPath,
        /// The first set path that lies under any.
        long: RepoPath,
    },
    /// Memory ran out.
    #[error("memory ran out")]
    Memory,
}

impl From<AllocError> for FieldsFault {
    ghost from_gives = { λ _ e. e ≡ Memory };

    fn from(_e: AllocError) -> FieldsFault {
        FieldsFault::Memory
    }
}

impl Changeset {
    /// The changeset of these fields, if they keep the rules of each and no path that they set lies under another.
    pub fn from_fields(alloc: Global, fields: Fields) -> Result<Changeset, FieldsFault>
        ensures ok { IfOk result (λ c. c ≡ fields_view fields) }
        ensures fault { IfErr result (λ fault. IsFault fault (fields_view fields)) }
    {
        check_rules(&fields)?;
        if let Some(conflict) = fields.self_conflict() {
            let short = conflict.short.copy(alloc)?;
            let long = conflict.long.copy(alloc)?;
            return Err(FieldsFault::SelfConflict { short, long });
        }
        Ok(Changeset::of_fields(alloc, fields)?)
    }

    /// Whether its copy sources name a parent that is there once it has one parent, whichever it is.
    pub fn keeps_on_parent(&self) -> bool
        ensures value { result ≡ model.are_changes self.now.version 1 self.now.changes }
        // They do where it has one parent at most.
        ensures alone { length self.now.parents ≤ 1 → IsTrue result }
    {
        let place = Place {
            version: self.version,
            parents: 1,
        };
        keep_sources(place, self.told.edits.as_slice())
    }
}

// The rules of each field.
fn check_rules(fields: &Fields) -> Result<(), FieldsFault>
    ensures rules { IfOk result (λ _. IsTrue (model.is_changeset (fields_view fields.now))) }
    ensures fault { IfErr result (λ fault. IsFault fault (fields_view fields.now)) }
{
    dates_keep_the_rules(fields.seconds, fields.offset);
    if !are_parents(fields.parents.as_slice()) {
        return Err(FieldsFault::BadParents);
    }
    if !is_author(fields.author.as_str()) {
        return Err(FieldsFault::BadAuthor);
    }
    if !is_message(fields.message.as_str()) {
        return Err(FieldsFault::BadMessage);
    }
    let place = Place {
        version: fields.version,
        parents: fields.parents.len(),
    };
    check_edits(place, fields.edits.as_slice())
}

// What the rules of a copy source look at.
#[derive(Clone, Copy)]
struct Place {
    version: Version,
    parents: usize,
}

fn check_edits(place: Place, edits: &[Edit]) -> Result<(), FieldsFault>
    ensures rules { IfOk result (λ _. IsTrue (model.are_changes (version_view place.version) place.parents (edits_view edits.now))) }
    ensures fault { IfErr result (λ fault. IsEditsFault (version_view place.version) place.parents fault (edits_view edits.now)) }
{
    if edits.len() > MOST_EDITS as usize {
        return Err(FieldsFault::TooManyEdits);
    }
    if !keep_sizes(edits) {
        return Err(FieldsFault::TooLarge);
    }
    if !keep_sources(place, edits) {
        return Err(FieldsFault::BadSource);
    }
    if !are_rising(edits) {
        return Err(FieldsFault::Unordered);
    }
    Ok(())
}

// Numbers of these widths keep the rules of dates.
fn dates_keep_the_rules(seconds: i64, offset: i32)
    ensures seconds { IsTrue (model.is_signed 64 seconds) }
    ensures offset { IsTrue (model.is_signed 32 offset) }
{}

fn are_parents(parents: &[Id]) -> bool
    ensures { result ≡ model.are_parents parents.now }
{
    match parents {
        [] => true,
        [only] => {
            let _bytes = only.as_bytes();
            true
        }
        [first, second] => {
            let _bytes = first.as_bytes();
            let _others = second.as_bytes();
            first != second
        }
        _ => false,
    }
}

fn is_author(author: &str) -> bool
    ensures { result ≡ model.is_author author.now }
{
    !author.is_empty()
        && author.len() <= usize::from(LONGEST_AUTHOR)
        && line_of(author.as_bytes()).is_some()
}

fn is_message(message: &str) -> bool
    ensures { result ≡ model.is_message message.now }
{
    message.len() <= LONGEST_MESSAGE as usize && is_text(message.as_bytes())
}

// Whether no set names too large a size.
fn keep_sizes(edits: &[Edit]) -> bool
    ensures { result ≡ have_sizes (edits_view edits.now) }
{
    for edit in edits {
        if !keeps_size(edit) {
            return false;
        }
    }
    true
}

fn keeps_size(edit: &Edit) -> bool
    ensures { result ≡ has_size (edit_view edit.now) }
{
    // What it has kept its rules when it was made.
    let _path = edit.path.as_str();
    match &edit.change {
        Change::Delete => true,
        Change::Set {
            content,
            kind: _,
            size,
            copied: _,
        } => {
            let _bytes = content.as_bytes();
            *size <= MOST_SIZE
        }
    }
}

// Whether each copy source names a parent that is there.
fn keep_sources(place: Place, edits: &[Edit]) -> bool
    ensures { result ≡ have_sources (version_view place.version) place.parents (edits_view edits.now) }
{
    for edit in edits {
        if !keeps_source(place, edit) {
            return false;
        }
    }
    true
}

fn keeps_source(place: Place, edit: &Edit) -> bool
    ensures { result ≡ has_source (version_view place.version) place.parents (edit_view edit.now) }
{
    match &edit.change {
        Change::Set {
            copied: Some(source),
            ..
        } => names_parent(place, source),
        Change::Set { copied: None, .. } | Change::Delete => true,
    }
}

fn names_parent(place: Place, source: &CopySource) -> bool
    ensures { result ≡ model.is_copied (version_view place.version) place.parents (Some (source_view source.now)) }
{
    // What it has kept its rules when it was made.
    let _path = source.path.as_str();
    match place.version {
        Version::First => false,
        Version::Second => usize::from(source.parent) < place.parents,
    }
}

// Whether each path is greater than the one before it.
fn are_rising(edits: &[Edit]) -> bool
    ensures { result ≡ is_sorted path_cmp (edits_view edits.now) }
{
    let mut before: Option<&RepoPath> = None;
    for edit in edits {
        if let Some(before) = before {
            if *before >= edit.path {
                return false;
            }
        }
        before = Some(&edit.path);
    }
    true
}
