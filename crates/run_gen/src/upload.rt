//! What a client uploads for one changeset of a stack.
ghost use Rattle.std.specs.Prelude.{◌≡◌, ◌<◌, ◌≤◌, ◌∷◌, [], None, IfOk, IfSome, IsTrue, OnOk, length, option_map, string_bytes};
ghost use Rattle.changeset_model.specs.Changeset.{id_of, source_of, spelling};
ghost use Rattle.bonsai.specs.Making.{is_sized, keeps_size};
ghost use Rattle.bonsai.specs.View.{change_view, edit_view, fields_view};
ghost use Rattle.run_gen.specs.Stacks.{after_part, change_of, changeset_of, content_of, edit_on, edited, part_of};

use crate::draws::Draws;
use crate::names::{author, keep_the_rules, message, path};
use crate::part::Part;
use bonsai::{Change, Changeset, Edit, Fields, FieldsFault, FileKind, Version, encode};
use object_id::Id;
use std::alloc::{AllocError, Global};

/// What is uploaded for one changeset.
#[derive(Debug, Drop)]
pub struct Upload {
    /// The content that it sets, to be uploaded first, or `None` where it deletes.
    pub content: Option<String>,
    /// The encoding.
    pub encoding: Vec<u8>,
    /// The changeset's id.
    pub id: Id,
}

/// Draws the changeset at a place of a stack of a client, on this parent.
pub fn next_upload(
    alloc: Global,
    draws: &mut Draws,
    client: u64,
    stack: u64,
    place: u64,
    parent: Id,
) -> Result<Upload, AllocError>
    requires { client < 8 }
    ensures content { IfOk result (λ upload. option_map string_bytes upload.content ≡ content_of (part_of draws.old)) }
    ensures encoding { IfOk result (λ upload. upload.encoding.items ≡ spelling (changeset_of client stack place parent (part_of draws.old))) }
    ensures id { IfOk result (λ upload. upload.id ≡ id_of (changeset_of client stack place parent (part_of draws.old))) }
    ensures state { OnOk result (draws.new ≡ after_part draws.old) }
{
    let part = Part::draw(draws);
    let content = part.content(alloc)?;
    let edit = edit_of(alloc, client, &part, &content)?;
    let changeset = changeset(alloc, client, stack, place, parent, edit)?;
    let encoding = encode(alloc, &changeset)?;
    let id = Id::of(encoding.as_slice());
    Ok(Upload {
        content,
        encoding,
        id,
    })
}

// What a part does, at its path.
fn edit_of(
    alloc: Global,
    client: u64,
    part: &Part,
    content: &Option<String>,
) -> Result<Edit, AllocError>
    requires client { client < 8 }
    requires directory { part.now.directory < 8 }
    requires file { part.now.file < 32 }
    requires content { option_map string_bytes content.now ≡ content_of part.now }
    requires short { IfSome content.now (λ text. length (string_bytes text) ≤ 6) }
    ensures edit { IfOk result (λ edit. edit_view edit ≡ edit_on client part.now) }
    ensures rules { IfOk result (λ edit. IsTrue (keeps_size (edit_view edit))) }
    ensures source { IfOk result (λ edit. source_of (edit_view edit).1 ≡ None) }
{
    let path = path(alloc, client, part)?;
    let change = change_to(content);
    Ok(Edit { path, change })
}

fn change_to(content: &Option<String>) -> Change
    requires { IfSome content.now (λ text. length (string_bytes text) ≤ 6) }
    ensures change { change_view result ≡ change_of (option_map string_bytes content.now) }
    ensures rules { IsTrue (is_sized (change_view result)) }
    ensures source { source_of (change_view result) ≡ None }
{
    let Some(text) = content else {
        return Change::Delete;
    };
    let id = Id::of(text.as_bytes());
    // Its bytes keep the rule of an id.
    let _bytes = id.as_bytes();
    Change::Set {
        content: id,
        kind: FileKind::Regular,
        size: text.len() as u64,
        copied: None,
    }
}

// The changeset with this edit.
fn changeset(
    alloc: Global,
    client: u64,
    stack: u64,
    place: u64,
    parent: Id,
    edit: Edit,
) -> Result<Changeset, AllocError>
    requires client { client < 8 }
    requires edit { IsTrue (keeps_size (edit_view edit)) }
    requires source { source_of (edit_view edit).1 ≡ None }
    ensures { IfOk result (λ c. c ≡ edited client stack place parent (edit_view edit)) }
{
    let fields = fields(alloc, client, stack, place, parent, edit)?;
    keep_the_rules(client, stack, place);
    // Its bytes keep the rule of an id.
    let _bytes = parent.as_bytes();
    match Changeset::from_fields(alloc, fields) {
        Ok(changeset) => Ok(changeset),
        Err(fault) => Err(want_of_memory(fault)),
    }
}

fn fields(
    alloc: Global,
    client: u64,
    stack: u64,
    place: u64,
    parent: Id,
    edit: Edit,
) -> Result<Fields, AllocError>
    ensures { IfOk result (λ fields. fields_view fields ≡ edited client stack place parent (edit_view edit)) }
{
    Ok(Fields {
        version: Version::First,
        parents: Vec::from_array(alloc, [parent])?,
        author: author(alloc, client)?,
        seconds: 0,
        offset: 0,
        message: message(alloc, stack, place)?,
        edits: one_edit(alloc, edit)?,
    })
}

fn one_edit(alloc: Global, edit: Edit) -> Result<Vec<Edit>, AllocError>
    ensures { IfOk result (λ edits. edits.items ≡ edit ∷ []) }
{
    let mut edits = Vec::with_capacity(alloc, 1)?;
    edits.push(edit)?;
    Ok(edits)
}

// Fields that keep all rules make a changeset, unless memory runs out.
fn want_of_memory(fault: FieldsFault) -> AllocError
    requires { fault ≡ FieldsFault.Memory }
{
    match fault {
        FieldsFault::Memory => AllocError,
        FieldsFault::BadParents
        | FieldsFault::BadAuthor
        | FieldsFault::BadMessage
        | FieldsFault::TooManyEdits
        | FieldsFault::TooLarge
        | FieldsFault::BadSource
        | FieldsFault::Unordered
        | FieldsFault::SelfConflict { .. } => unreachable!(),
    }
}
