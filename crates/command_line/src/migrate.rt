//! Copying a repository to a file of the second version.
ghost use Rattle.std.specs.Prelude.{◌≡◌, false, true, is_none, None};
ghost use Rattle.ports.specs.Faults.{Counts as FaultCounts};
ghost use Rattle.reply_model.specs.Legal.{IsLegal};
ghost use Rattle.repo_journal.specs.Opened.{IsOpened};
ghost use Rattle.repo_machine.specs.Counting.{counts_of};
ghost use Rattle.command_line.specs.Migrating.{CopiesOpened, Migrates, report_of};
ghost use Rattle.command_line.specs.Outside.{none_served, outside, taken_from};
ghost use Rattle.command_line.specs.Running.{OpensBoth, RunsMigrate};

use crate::opening::{OpenedFile, open_file};
use crate::program::tell;
use crate::ran::{Ran, beside};
use crate::report::Report;
use crate::status::Outcome;
use blob_disk::Disk;
use migration::{MigrateFault, migrate_to};
use ports::{Link, Opener};
use repo_machine::Counts;
use std::alloc::Global;
use std::hash::RandomState;

/// What a migration came to: what is reported of it, and the new file and the old one, where they were opened.
#[derive(Drop)]
pub struct Migration<D> {
    pub report: Report,
    pub disk: Option<D>,
    pub other: Option<D>,
}

/// Copies the repository in the file of the one name to a file of the second version under the other, which is made where there
/// is none. The tables by ids are hashed with these keys.
pub fn migrate_file<D: Disk, O: Opener<D>>(
    alloc: Global,
    keys: RandomState,
    opener: &mut O,
    source: &str,
    target: &str,
) -> Migration<D>
    ensures migrates { Migrates D.meaning source.now target.now (O.shelf opener.old) (O.faults opener.old) (O.faults opener.new) result }
    ensures left { O.shelf opener.new ≡ taken_from target.now true result.disk (taken_from source.now false result.other (O.shelf opener.old)) }
    ensures faults { FaultCounts (O.faults opener.old) (O.faults opener.new) (is_none result.other) }
{
    match open_file(alloc, keys, opener, source) {
        Ok(opened) => migrate_opened(opened, opener, target),
        Err(outcome) => Migration {
            report: outcome.report,
            disk: None,
            other: outcome.disk,
        },
    }
}

// Copies an opened repository to the file of this name.
fn migrate_opened<D: Disk, O: Opener<D>>(
    opened: OpenedFile<D>,
    opener: &mut O,
    target: &str,
) -> Migration<D>
    requires opened { IsOpened opened.machine.header opened.machine.history opened.journal (D.meaning opened.disk) }
    requires legal { IsLegal opened.machine.header opened.machine.history }
    ensures copies { CopiesOpened D.meaning target.now (O.shelf opener.old) opened.machine.header opened.machine.history opened.journal (D.meaning opened.disk) (O.faults opener.old) (O.faults opener.new) result }
    ensures left { O.shelf opener.new ≡ taken_from target.now true result.disk (O.shelf opener.old) }
    ensures faults { FaultCounts (O.faults opener.old) (O.faults opener.new) (is_none result.disk) }
{
    let OpenedFile {
        machine,
        journal,
        mut disk,
    } = opened;
    let Ok(made) = migrate_to(&journal, &mut disk, opener, target) else {
        return Migration {
            report: Report::DiskFault,
            disk: None,
            other: Some(disk),
        };
    };
    Migration {
        report: report_of(machine.counts(), made.result),
        disk: Some(made.disk),
        other: Some(disk),
    }
}

fn report_of(counts: Counts, made: Result<(), MigrateFault>) -> Report
    ensures { result ≡ report_of counts made }
{
    match made {
        Ok(()) => Report::Migrated {
            entries: counts.entries,
            size: counts.size,
        },
        Err(MigrateFault::Exists { size: _ }) => Report::NotEmpty,
        Err(MigrateFault::OldFault | MigrateFault::NewFault) => Report::DiskFault,
    }
}

/// Copies it, and reports that in one line.
pub(crate) fn run_migrate<D, O, L, A, K>(
    alloc: Global,
    keys: RandomState,
    source: &str,
    target: &str,
    link: &mut L,
    opener: &mut O,
    accept: A,
) -> Ran<D, A, K>
where
    D: Disk,
    O: Opener<D>,
    L: Link,
    K: Drop,
    ensures runs { RunsMigrate D.meaning source.now target.now (outside O.shelf O.faults L.rest L.written L.faults opener.old link.old) (outside O.shelf O.faults L.rest L.written L.faults opener.new link.new) (record { status = result.status; disk = result.disk }) result.other }
    ensures only { OpensBoth source.now target.now (outside O.shelf O.faults L.rest L.written L.faults opener.old link.old) (outside O.shelf O.faults L.rest L.written L.faults opener.new link.new) result.disk result.other }
    ensures load { result.load ≡ None }
    ensures served { result.served ≡ none_served }
    ensures link { result.link ≡ None }
    ensures accept { result.accept ≡ accept }
{
    let Migration {
        report,
        disk,
        other,
    } = migrate_file(alloc, keys, opener, source, target);
    beside(tell(Outcome { report, disk }, link), other, accept)
}
