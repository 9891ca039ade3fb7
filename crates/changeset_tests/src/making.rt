//! Changesets that are made of their fields.
use crate::bytes::{id_of_hex, letters, of_hex};
use crate::samples::{NEW, OLD, RICH, RICH_ID};
use bonsai::{
    Change, Changeset, Commit, CopySource, Edit, Fields, FieldsFault, FileKind, Version, decode,
};
use object_id::Id;
use repo_path::RepoPath;
use std::alloc::Global;
use std::process::Abort;
use std::test::Fail;

fn path(alloc: Global, text: &str) -> Option<RepoPath> {
    RepoPath::parse(alloc, text).ok()
}

fn set(alloc: Global, text: &str, kind: FileKind, size: u64) -> Option<Edit> {
    let path = path(alloc, text)?;
    let content = Id::of(b"abc");
    let change = Change::Set {
        content,
        kind,
        size,
        copied: None,
    };
    Some(Edit { path, change })
}

fn delete(alloc: Global, text: &str) -> Option<Edit> {
    let path = path(alloc, text)?;
    let change = Change::Delete;
    Some(Edit { path, change })
}

fn put(edits: &mut Vec<Edit>, edit: Option<Edit>) -> Option<()> {
    edits.push(edit?).ok()
}

fn rich_edits(alloc: Global) -> Option<Vec<Edit>> {
    let mut edits = Vec::new(alloc);
    put(&mut edits, delete(alloc, "a/b"))?;
    put(&mut edits, set(alloc, "a.b", FileKind::Executable, 3))?;
    put(&mut edits, delete(alloc, "a.b/c"))?;
    Some(edits)
}

fn text(alloc: Global, text: &str) -> Option<String> {
    String::from_str(alloc, text).ok()
}

fn ids(alloc: Global, parents: &[Id]) -> Option<Vec<Id>> {
    Vec::from_slice(alloc, parents).ok()
}

fn fields(alloc: Global, parents: &[Id], author: &str, edits: Vec<Edit>) -> Option<Fields> {
    let parents = ids(alloc, parents)?;
    let author = text(alloc, author)?;
    let message = text(alloc, "two\nlines")?;
    Some(Fields {
        version: Version::First,
        parents,
        author,
        seconds: -1,
        offset: -3600,
        message,
        edits,
    })
}

fn rich(alloc: Global) -> Option<Fields> {
    let parents = [id_of_hex(OLD), id_of_hex(NEW)];
    fields(alloc, &parents, "\u{e9} x", rich_edits(alloc)?)
}

fn name_of(fault: &FieldsFault) -> &'static str {
    match fault {
        FieldsFault::BadParents => "parents",
        FieldsFault::BadAuthor => "author",
        FieldsFault::BadMessage => "message",
        FieldsFault::TooManyEdits => "many",
        FieldsFault::TooLarge => "large",
        FieldsFault::BadSource => "source",
        FieldsFault::Unordered => "unordered",
        FieldsFault::SelfConflict { short: _, long: _ } => "conflict",
        FieldsFault::Memory => "memory",
    }
}

// Why fields make no changeset.
fn fault(alloc: Global, fields: Option<Fields>) -> &'static str {
    let Some(fields) = fields else {
        return "memory";
    };
    match changeset(alloc, fields) {
        Ok(_) => "none",
        Err(fault) => name_of(&fault),
    }
}

fn of_author(alloc: Global, author: &str) -> Option<Fields> {
    fields(alloc, &[], author, Vec::new(alloc))
}

fn of_parents(alloc: Global, first: &str, second: &str) -> Option<Fields> {
    fields(
        alloc,
        &[id_of_hex(first), id_of_hex(second)],
        "a",
        Vec::new(alloc),
    )
}

fn of_message(alloc: Global, length: usize) -> Option<Fields> {
    let message = letters(alloc, length).ok()?;
    let mut fields = rich(alloc)?;
    fields.message = message;
    Some(fields)
}

// Two sets, the second of a file of so many bytes.
fn of_sets(alloc: Global, first: &str, second: &str, size: u64) -> Option<Fields> {
    let mut edits = Vec::new(alloc);
    put(&mut edits, set(alloc, first, FileKind::Regular, 3))?;
    put(&mut edits, set(alloc, second, FileKind::Symlink, size))?;
    fields(alloc, &[], "a", edits)
}

// A copy of `p` of a parent, given by its place.
fn copy(alloc: Global, parent: u8) -> Option<Edit> {
    let source = CopySource {
        parent,
        path: path(alloc, "p")?,
    };
    let change = Change::Set {
        content: Id::of(b"abc"),
        kind: FileKind::Regular,
        size: 3,
        copied: Some(source),
    };
    Some(Edit {
        path: path(alloc, "q")?,
        change,
    })
}

// Such a copy in a changeset with so many parents.
fn of_copy(alloc: Global, version: Version, parents: usize, place: u8) -> Option<Fields> {
    let mut edits = Vec::new(alloc);
    put(&mut edits, copy(alloc, place))?;
    let both = [id_of_hex(OLD), id_of_hex(NEW)];
    let mut fields = fields(alloc, both.get(..parents)?, "a", edits)?;
    fields.version = version;
    Some(fields)
}

// Whether such a copy may stand on one parent, whichever it is.
fn may_move(alloc: Global, parents: usize, place: u8) -> Option<bool> {
    let fields = of_copy(alloc, Version::Second, parents, place)?;
    let changeset = changeset(alloc, fields).ok()?;
    Some(changeset.keeps_on_parent())
}

fn changeset(alloc: Global, fields: Fields) -> Result<Changeset, FieldsFault> {
    Changeset::from_fields(alloc, fields)
}

fn made(alloc: Global) -> Option<Changeset> {
    changeset(alloc, rich(alloc)?).ok()
}

fn read_rich(alloc: Global) -> Option<Changeset> {
    decode(alloc, &of_hex(alloc, RICH)).ok()
}

fn is_as_read(alloc: Global, changeset: &Changeset) -> bool {
    match read_rich(alloc) {
        Some(read) => read == *changeset,
        None => false,
    }
}

fn differs_on_other_parent(alloc: Global, changeset: &Changeset) -> bool {
    changeset.keeps_on_parent()
        && changeset
            .with_parent(alloc, id_of_hex(NEW), 0)
            .is_ok_and(|other| other != *changeset)
}

fn has_commit(alloc: Global, changeset: Changeset, id: &str, length: usize) -> bool {
    Commit::of(alloc, changeset).is_ok_and(|commit| commit.id() == id_of_hex(id)
        && commit.encoded_length() == length)
}

#[test]
fn made_and_read_are_one(rt: HostRuntime) -> Result<(), Fail> {
    let alloc = rt.alloc();
    let made = made(alloc).ok_or("a changeset")?;
    assert!(rt; is_as_read(alloc, &made));
    assert!(rt; differs_on_other_parent(alloc, &made));
    assert!(rt; has_commit(alloc, made, RICH_ID, 163));
    Ok(())
}

#[test]
fn authors(rt: HostRuntime) {
    for (author, want) in [
        ("", "author"),
        ("a\nb", "author"),
        ("a\0", "author"),
        ("a", "none"),
    ] {
        assert_eq!(rt;
            fault(rt.alloc(), of_author(rt.alloc(), author)),
            want,
            "{author}"
        );
    }
}

#[test]
fn parents_and_messages(rt: HostRuntime) {
    let alloc = rt.alloc();
    assert_eq!(rt; fault(alloc, of_parents(alloc, OLD, NEW)), "none");
    assert_eq!(rt; fault(alloc, of_parents(alloc, OLD, OLD)), "parents");
    assert_eq!(rt; fault(alloc, of_message(alloc, 1_048_577)), "message");
}

// A version, how many parents there are, the place of the one that is copied from, and why that makes no changeset.
const COPIES: [(Version, usize, u8, &str); 5] = [
    (Version::First, 1, 0, "source"),
    (Version::Second, 0, 0, "source"),
    (Version::Second, 1, 0, "none"),
    (Version::Second, 1, 1, "source"),
    (Version::Second, 2, 1, "none"),
];

#[test]
fn sources_of_copies(rt: HostRuntime) {
    let alloc = rt.alloc();
    for (version, parents, place, want) in COPIES {
        let fields = of_copy(alloc, version, parents, place);
        assert_eq!(rt; fault(alloc, fields), want, "{place} of {parents}");
    }
    assert_eq!(rt; may_move(alloc, 2, 0), Some(true));
    assert_eq!(rt; may_move(alloc, 2, 1), Some(false));
}

// Two paths that are set, the bytes of the second file, and why that makes no changeset.
const EDITS: &str = "\
a b 67108864 none
a b 67108865 large
b a 3 unordered
a a 3 unordered
a.b a/b 3 unordered
a a/b 3 conflict";

fn cut(row: &str) -> (&str, &str) {
    row.split_once(' ').unwrap_or((row, ""))
}

fn check_edits(rt: &impl Abort, alloc: Global, row: &str) -> Result<(), Fail> {
    let (first, rest) = cut(row);
    let (second, rest) = cut(rest);
    let (size, wanted) = cut(rest);
    let size = size.parse()?;
    let fields = of_sets(alloc, first, second, size);
    assert_eq!(rt; fault(alloc, fields), wanted, "{row}");
    Ok(())
}

#[test]
fn edits(rt: HostRuntime) -> Result<(), Fail> {
    for row in EDITS.lines() {
        check_edits(&rt, rt.alloc(), row)?;
    }
    Ok(())
}
