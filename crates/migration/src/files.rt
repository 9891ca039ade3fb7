//! Copying an opened repository to the file of a name.
ghost use Rattle.std.specs.Prelude.{◌≡◌, ◌≤◌, List, true, is_err, IfOk, OnErr, OnOk};
ghost use Rattle.std.specs.Option.{option_map};
ghost use Rattle.ports.specs.Faults.{Counts};
ghost use Rattle.ports.specs.Openers.{left};
ghost use Rattle.disk_model.specs.Meaning.{IsLong};
ghost use Rattle.history_model.specs.History.{Entry};
ghost use Rattle.history_model.specs.Journal.{Header};
ghost use Rattle.reply_model.specs.Legal.{IsLegal};
ghost use Rattle.repo_journal.specs.Opened.{IsOpened};
ghost use Rattle.repo_journal.specs.declared.header.TheConstants.{EMPTY_SIZE};
ghost use Rattle.migration.specs.Files.{CopiesTo, OnlyRead};

use crate::fault::MigrateFault;
use crate::migrating::migrate;
use blob_disk::Disk;
use ports::{Failed, Opener};
use repo_journal::Journal;

/// The file to which a repository was to be copied, and what came of that.
#[derive(Drop)]
pub struct Target<D> {
    pub disk: D,
    pub result: Result<(), MigrateFault>,
}

/// Copies an opened repository to the file of this name, which is made where there is none.
///
/// # Errors
/// The file wasn't opened.
pub fn migrate_to<D: Disk, O: Opener<D>>(
    journal: &Journal,
    from: &mut D,
    opener: &mut O,
    name: &str,
) -> Result<Target<D>, Failed>
    requires some { EMPTY_SIZE ≤ journal.now.size }
    requires long { IsLong (D.meaning from.old).reads journal.now.size }
    ensures copies { IfOk result (λ target. (header : Header) (h : List Entry) → IsOpened header h journal.now (D.meaning from.old) → IsLegal header h
        → CopiesTo D.meaning name.now (O.shelf opener.old) header h (D.meaning from.old) (D.meaning from.new) target.result target.disk) }

    // What was opened stays open: each of its images stands for its history, as since its opening.
    ensures opened { (header : Header) (h : List Entry) → IsOpened header h journal.now (D.meaning from.old) → IsOpened header h journal.now (D.meaning from.new) }
    ensures read { OnlyRead (D.meaning from.old) (D.meaning from.new) }
    ensures left { OnOk result (O.shelf opener.new ≡ option_map (left name.now true) (O.shelf opener.old)) }
    ensures err { OnErr result (O.shelf opener.new ≡ O.shelf opener.old) }
    ensures faults { Counts (O.faults opener.old) (O.faults opener.new) (is_err result) }
{
    let mut disk = opener.open(name, true)?;
    let result = migrate(journal, from, &mut disk);
    Ok(Target { disk, result })
}
