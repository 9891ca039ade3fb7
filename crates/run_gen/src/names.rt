//! The names that a load goes by, and the texts of a client's changesets.
ghost use Rattle.std.specs.Prelude.{◌≡◌, ◌<◌, IfOk, IsTrue, OnOk, string_bytes};
ghost use Rattle.changeset_model.specs.Changeset.{is_author, is_message};
ghost use Rattle.changeset_model.specs.Path.{is_path, text_of};
ghost use Rattle.history_model.specs.Bookmark.{is_name};
ghost use Rattle.run_gen.specs.Naming.{IsNamed};
ghost use Rattle.run_gen.specs.Stacks.{client_name, main, message_of, path_of};

use crate::MAIN;
use crate::part::Part;
use repo_path::{BookName, NameFault, PathFault, RepoPath};
use std::alloc::{AllocError, Global};

// Who lands where nobody is named.
const NOBODY: &str = "anonymous";

/// The bookmark that stacks are landed on, and who lands them.
#[derive(Drop)]
pub(crate) struct Names {
    pub(crate) main: BookName,
    pub(crate) caller: BookName,
}

impl Names {
    /// The bookmark `main`, and a caller who isn't named.
    pub(crate) fn new(alloc: Global) -> Result<Names, AllocError>
        ensures { IfOk result (λ names. IsNamed names) }
    {
        Ok(Names {
            main: main_name(alloc)?,
            caller: name(alloc, NOBODY)?,
        })
    }
}

/// The name of the bookmark that stacks are landed on.
pub(crate) fn main_name(alloc: Global) -> Result<BookName, AllocError>
    ensures { IfOk result (λ name. name ≡ main) }
{
    name(alloc, MAIN)
}

fn name(alloc: Global, text: &str) -> Result<BookName, AllocError>
    requires { IsTrue (is_name text.now) }
    ensures { IfOk result (λ name. name ≡ text.now) }
{
    match BookName::parse(alloc, text) {
        Ok(name) => Ok(name),
        Err(NameFault::BadName { at: _ }) => unreachable!(),
        Err(NameFault::Memory) => Err(AllocError),
    }
}

/// The author of a client's changesets.
pub(crate) fn author(alloc: Global, client: u64) -> Result<String, AllocError>
    ensures { IfOk result (λ text. string_bytes text ≡ client_name client) }
{
    format!(in alloc; "client{client}")
}

/// The message of the changeset at a place of a stack.
pub(crate) fn message(alloc: Global, stack: u64, place: u64) -> Result<String, AllocError>
    ensures { IfOk result (λ text. string_bytes text ≡ message_of stack place) }
{
    format!(in alloc; "stack {stack} part {place}")
}

// The path of a part as text.
fn path_text(alloc: Global, client: u64, part: &Part) -> Result<String, AllocError>
    ensures { IfOk result (λ text. string_bytes text ≡ text_of (path_of client part.now)) }
{
    let Part {
        directory,
        file,
        ..
    } = part;
    format!(in alloc; "client{client}/d{directory}/f{file}")
}

/// The path of a part, in the directory of the client.
pub(crate) fn path(alloc: Global, client: u64, part: &Part) -> Result<RepoPath, AllocError>
    requires client { client < 8 }
    requires directory { part.now.directory < 8 }
    requires file { part.now.file < 32 }
    ensures path { IfOk result (λ path. path ≡ path_of client part.now) }
    ensures rules { OnOk result (IsTrue (is_path (path_of client part.now))) }
{
    let text = path_text(alloc, client, part)?;
    match RepoPath::parse(alloc, text.as_str()) {
        Ok(path) => Ok(path),
        Err(PathFault::BadPath { at: _ }) => unreachable!(),
        Err(PathFault::Memory) => Err(AllocError),
    }
}

/// The author and the message keep the rules of a changeset.
pub(crate) fn keep_the_rules(client: u64, stack: u64, place: u64)
    requires { client < 8 }
    ensures author { IsTrue (is_author (client_name client)) }
    ensures message { IsTrue (is_message (message_of stack place)) }
{}
