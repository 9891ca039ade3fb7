//! Lists the records of an open journal.
ghost use Rattle.std.specs.Prelude.{◌≡◌, ℕ, List, All, false, IfOk, IsSome, IsTrue};
ghost use Rattle.ports.specs.Faults.{Counts};
ghost use Rattle.disk_model.specs.Images.{IsImage};
ghost use Rattle.disk_model.specs.Meaning.{IsLong};
ghost use Rattle.disk_model.specs.Calls.{Kept, LeavesOnly, Looked};
ghost use Rattle.repo_journal.specs.Answers.{is_scan_fault};
ghost use Rattle.repo_journal.specs.Spans.{IsInside, HasRecords, spans_from};

use crate::fault::ScanFault;
use crate::header::FIRST_GATE;
use crate::journal::Journal;
use crate::scanner::Scanner;
use crate::span::Span;
use crate::step::Step;
use blob_disk::Disk;
use std::alloc::Global;

impl Journal {
    /// Where the payloads stand, in order. A payload has less than 2^32 bytes.
    pub fn records<D: Disk>(&self, alloc: Global, disk: &mut D) -> Result<Vec<Span>, ScanFault>
        requires { IsLong (D.meaning disk.old).reads self.now.size }
        ensures all { IfOk result (λ spans. IsTrue (D.meaning disk.old).honest → (payloads : List (List ℕ))
            → HasRecords FIRST_GATE self.now.size payloads (D.meaning disk.old).state.reads → spans.items ≡ spans_from FIRST_GATE payloads) }
        ensures inside { IfOk result (λ spans. All (IsInside self.now.size) spans.items) }
        ensures looked { Looked (D.meaning disk.old) (D.meaning disk.new) }
        ensures kept { Kept (D.meaning disk.old) (D.meaning disk.new) }
        ensures time { IsTrue (D.meaning disk.old).honest → LeavesOnly (IsImage (D.meaning disk.new).state) (D.meaning disk.old) (D.meaning disk.new) }
        ensures faults { Counts (D.meaning disk.old).faults (D.meaning disk.new).faults (is_scan_fault result) }
        ensures quiet { IsSome (D.meaning disk.old).quiet → is_scan_fault result ≡ false }
    {
        let Ok(mut scanner) = Scanner::new(alloc, self.size()) else {
            return Err(ScanFault::Memory);
        };
        let mut spans = Vec::new(alloc);
        while let Step::Record(span) = scanner.next(disk)? {
            if spans.push(span).is_err() {
                return Err(ScanFault::Memory);
            }
        }
        Ok(spans)
    }
}
