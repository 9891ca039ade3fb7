//! Files among the entries of an fsnode.
ghost use Rattle.std.specs.Prelude.{◌≡◌, Some, bytes_eq, option_map};
ghost use Rattle.manifest_laws.specs.Entries.{file_of_entry};
ghost use Rattle.fsnode.specs.Parts.{children_seen, entry_seen};
ghost use Rattle.tree_fold.specs.View.{file_view};
ghost use Rattle.derive_step.specs.Steps.{file_now};

use fsnode::{FsChild, FsEntry};
use node_fields::Name;
use tree_fold::File;

/// The file of a name.
pub(crate) fn file_named(entries: &[FsChild], name: &Name) -> Option<File>
    ensures { option_map file_view result ≡ file_now (children_seen entries.now) name.now }
{
    for child in entries {
        if has_name(child, name) {
            return file_of(&child.entry);
        }
    }
    None
}

fn has_name(child: &FsChild, name: &Name) -> bool
    ensures { result ≡ bytes_eq child.now.name name.now }
{
    child.name.as_bytes() == name.as_bytes()
}

fn file_of(entry: &FsEntry) -> Option<File>
    ensures { option_map file_view result ≡ file_of_entry (Some (entry_seen entry.now)) }
{
    match entry {
        FsEntry::File {
            content,
            kind,
            size,
        } => Some(File {
            content: *content,
            kind: *kind,
            size: *size,
        }),
        FsEntry::Directory { .. } => None,
    }
}
