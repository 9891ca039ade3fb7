//! Counting what a repository holds.
ghost use Rattle.std.specs.Prelude.{◌≡◌, false, None, IfSome, is_none};
ghost use Rattle.ports.specs.Faults.{Counts};
ghost use Rattle.command_line.specs.Counting.{ChecksIn};
ghost use Rattle.command_line.specs.Making.{Unopened};
ghost use Rattle.command_line.specs.Outside.{taken_from};

use crate::opening::open_file;
use crate::report::Report;
use crate::status::Outcome;
use blob_disk::Disk;
use ports::Opener;
use std::alloc::Global;
use std::hash::RandomState;

/// Opens the repository in the file of this name, and counts what it holds. The tables by ids are
/// hashed with these keys.
pub fn fsck_file<D: Disk, O: Opener<D>>(
    alloc: Global,
    keys: RandomState,
    opener: &mut O,
    file: &str,
) -> Outcome<D>
    ensures unopened { result.disk ≡ None → Unopened result.report (O.faults opener.old) (O.faults opener.new) }
    ensures opened { IfSome result.disk (λ disk. ChecksIn D.meaning file.now (O.shelf opener.old) disk result.report) }
    ensures left { O.shelf opener.new ≡ taken_from file.now false result.disk (O.shelf opener.old) }
    ensures faults { Counts (O.faults opener.old) (O.faults opener.new) (is_none result.disk) }
{
    match open_file(alloc, keys, opener, file) {
        Ok(opened) => Outcome {
            report: Report::Counted(opened.machine.counts()),
            disk: Some(opened.disk),
        },
        Err(outcome) => outcome,
    }
}
