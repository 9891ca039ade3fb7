//! Opening the repository in a file.
ghost use Rattle.std.specs.Prelude.{◌≡◌, if◌then◌else◌, false, None, IfErr, IfOk, IfSome, OnOk};
ghost use Rattle.std.specs.Option.{option_map};
ghost use Rattle.ports.specs.Faults.{Counts};
ghost use Rattle.ports.specs.Openers.{left};
ghost use Rattle.command_line.specs.Opening.{Opens, OpensIn, Refuses, RefusesIn, is_unopened, report_of};
ghost use Rattle.command_line.specs.Making.{Unopened};

use crate::report::Report;
use crate::status::Outcome;
use blob_disk::Disk;
use ports::Opener;
use recovery::{OpenFault, Opened, open};
use repo_journal::Journal;
use repo_machine::Machine;
use std::alloc::Global;
use std::hash::RandomState;

/// A file whose repository was opened: what is known of the repository, its journal, and the disk.
#[derive(Drop)]
pub struct OpenedFile<D> {
    pub machine: Machine,
    pub journal: Journal,
    pub disk: D,
}

/// Opens the repository in the file of this name. The file isn't made where there is none.
/// The tables by ids are hashed with these keys.
///
/// # Errors
/// What is reported where the file or the repository in it wasn't opened, with the file's disk once that was.
pub fn open_file<D: Disk, O: Opener<D>>(
    alloc: Global,
    keys: RandomState,
    opener: &mut O,
    file: &str,
) -> Result<OpenedFile<D>, Outcome<D>>
    ensures opens { IfOk result (λ o. OpensIn D.meaning file.now (O.shelf opener.old) o.machine.header o.machine.history o.journal o.disk) }
    ensures left { O.shelf opener.new ≡ (if is_unopened result then O.shelf opener.old else option_map (left file.now false) (O.shelf opener.old)) }
    ensures unopened { IfErr result (λ came. came.disk ≡ None → Unopened came.report (O.faults opener.old) (O.faults opener.new)) }
    ensures refuses { IfErr result (λ came. IfSome came.disk (λ disk. RefusesIn D.meaning file.now (O.shelf opener.old) disk came.report)) }
    ensures faults { Counts (O.faults opener.old) (O.faults opener.new) (is_unopened result) }
{
    let Ok(mut disk) = opener.open(file, false) else {
        return Err(Outcome {
            report: Report::DiskFault,
            disk: None,
        });
    };
    match open_disk(alloc, keys, &mut disk) {
        Ok(Opened { machine, journal }) => Ok(OpenedFile {
            machine,
            journal,
            disk,
        }),
        Err(report) => Err(Outcome {
            report,
            disk: Some(disk),
        }),
    }
}

fn open_disk<D: Disk>(alloc: Global, keys: RandomState, disk: &mut D) -> Result<Opened, Report>
    ensures opens { IfOk result (λ o. Opens o.machine.header o.machine.history o.journal (D.meaning disk.old) (D.meaning disk.new)) }
    ensures refuses { IfErr result (Refuses (D.meaning disk.old) (D.meaning disk.new)) }
{
    match open(alloc, keys, disk) {
        Ok(opened) => Ok(opened),
        Err(fault) => Err(report_of(fault)),
    }
}

fn report_of(fault: OpenFault) -> Report
    ensures { result ≡ report_of fault }
{
    match fault {
        OpenFault::NotARepository => Report::NotARepository,
        OpenFault::Damaged { at } => Report::Damaged { at },
        OpenFault::DiskFault => Report::DiskFault,
        OpenFault::Memory => Report::NoMemory,
    }
}
