//! Making a repository.
ghost use Rattle.std.specs.Prelude.{◌≡◌, true, IfSome, IsTrue, None, is_none};
ghost use Rattle.ports.specs.Faults.{Counts};
ghost use Rattle.changeset_model.specs.Version.{Second};
ghost use Rattle.history_model.specs.Journal.{is_header};
ghost use Rattle.command_line.specs.Making.{Attempts, AttemptsIn, Unopened};
ghost use Rattle.command_line.specs.Outside.{taken_from};

use crate::report::Report;
use crate::status::Outcome;
use blob_disk::Disk;
use ports::Opener;
use repo_journal::{InitFault, init};

/// Makes a repository with a capacity in bytes, of the second version, in the file of this name, which is made where there is none.
pub fn init_file<D: Disk, O: Opener<D>>(opener: &mut O, file: &str, capacity: u64) -> Outcome<D>
    requires { IsTrue (is_header (record { capacity = capacity; version = Second })) }
    ensures unopened { result.disk ≡ None → Unopened result.report (O.faults opener.old) (O.faults opener.new) }
    ensures opened { IfSome result.disk (λ disk. AttemptsIn D.meaning file.now capacity (O.shelf opener.old) disk result.report) }
    ensures left { O.shelf opener.new ≡ taken_from file.now true result.disk (O.shelf opener.old) }
    ensures faults { Counts (O.faults opener.old) (O.faults opener.new) (is_none result.disk) }
{
    let Ok(mut disk) = opener.open(file, true) else {
        return Outcome {
            report: Report::DiskFault,
            disk: None,
        };
    };
    let report = init_disk(&mut disk, capacity);
    Outcome {
        report,
        disk: Some(disk),
    }
}

fn init_disk<D: Disk>(disk: &mut D, capacity: u64) -> Report
    requires { IsTrue (is_header (record { capacity = capacity; version = Second })) }
    ensures { Attempts capacity (D.meaning disk.old) (D.meaning disk.new) result }
{
    match init(disk, capacity) {
        Ok(()) => Report::Ready { capacity },
        Err(InitFault::Exists { size: _ }) => Report::NotEmpty,
        Err(InitFault::DiskFault) => Report::DiskFault,
    }
}
