//! The entry of a file's records, one after another.
ghost use Rattle.std.specs.Prelude.{◌≡◌, ◌+◌, ◌<◌, ◌≤◌, length, false, IfErr, IfOk, IsSome, IsTrue, OnOk};
ghost use Rattle.std.specs.Bool.{OnFalse, OnTrue};
ghost use Rattle.disk_model.specs.Meaning.{IsLong};
ghost use Rattle.disk_model.specs.Calls.{Looked};
ghost use Rattle.history_model.specs.History.{known};
ghost use Rattle.history_model.specs.Journal.{is_header};
ghost use Rattle.manifest_store.specs.Manifests.{AreManifests};
ghost use Rattle.repo_journal.specs.Scanning.{IsNext, step_at};
ghost use Rattle.repo_journal.specs.declared.step.Step.TheVariants.{Record};
ghost use Rattle.recovery.specs.Answers.{is_disk_fault, IsRefused};
ghost use Rattle.recovery.specs.Headers.{header_view, IsHeaded};
ghost use Rattle.recovery.specs.Reading.{IsAt, IsRead};
ghost use Rattle.recovery.specs.Settling.{Spares};

use crate::fault::OpenFault;
use crate::header::Header;
use crate::{ReplayFault, enter_payload};
use blob_disk::Disk;
use manifest_store::ManifestStore;
use repo_events::MOST_PAYLOAD;
use repo_journal::{EMPTY_SIZE, Scanner, Span, Step};
use repo_machine::Machine;
use std::alloc::Global;
use std::hash::RandomState;

// No record that may count ends behind this place: its gate stands within the capacity, and its
// payload has less than 2^32 bytes.
const MOST_READ: u64 = 68_719_476_736;

/// The history that the records of a file of this size stand for, with this header.
pub(crate) fn read_records<D: Disk>(
    alloc: Global,
    keys: RandomState,
    disk: &mut D,
    size: u64,
    header: Header,
) -> Result<Machine, OpenFault>
    requires limits { IsTrue (is_header (header_view header)) }
    requires some { EMPTY_SIZE ≤ size }
    requires long { IsLong (D.meaning disk.old).reads size }
    requires whole { IsTrue (D.meaning disk.old).honest → size ≡ length (D.meaning disk.old).state.reads }
    requires headed { IsTrue (D.meaning disk.old).honest → IsHeaded (header_view header) (D.meaning disk.old).state.reads }
    ensures read { IfOk result (λ machine. IsRead (D.meaning disk.new) machine.header machine.history) }
    ensures header { IfOk result (λ machine. machine.header ≡ header_view header) }
    ensures refused { IfErr result (λ e. IsTrue (D.meaning disk.old).honest → IsRefused (D.meaning disk.old).state.reads e) }
    ensures looked { Looked (D.meaning disk.old) (D.meaning disk.new) }
    ensures spares { Spares (D.meaning disk.old) (D.meaning disk.new) (is_disk_fault result) }
    ensures quiet { IsSome (D.meaning disk.old).quiet → is_disk_fault result ≡ false }
{
    let Ok(mut scanner) = Scanner::new(alloc, size.min(MOST_READ)) else {
        return Err(OpenFault::Memory);
    };
    let mut machine = Machine::new(alloc, keys, header.capacity, header.version);
    let mut manifests = ManifestStore::new(alloc);
    match enter_all(alloc, disk, &mut scanner, &mut machine, &mut manifests) {
        Ok(()) => Ok(machine),
        Err(fault) => Err(fault),
    }
}

// Enters what the records stand for, up to the closing gate.
fn enter_all<D: Disk>(
    alloc: Global,
    disk: &mut D,
    scanner: &mut Scanner,
    machine: &mut Machine,
    manifests: &mut ManifestStore,
) -> Result<(), OpenFault>
    requires at { IsAt (D.meaning disk.old) machine.old.header machine.old.history scanner.old.gate scanner.old }
    requires manifests { AreManifests (known machine.old.history) manifests.old }
    ensures read { OnOk result (IsRead (D.meaning disk.new) machine.new.header machine.new.history) }
    ensures header { machine.new.header ≡ machine.old.header }
    ensures refused { IfErr result (λ e. IsTrue (D.meaning disk.old).honest → IsRefused (D.meaning disk.old).state.reads e) }
    ensures looked { Looked (D.meaning disk.old) (D.meaning disk.new) }
    ensures spares { Spares (D.meaning disk.old) (D.meaning disk.new) (is_disk_fault result) }
    ensures quiet { IsSome (D.meaning disk.old).quiet → is_disk_fault result ≡ false }
{
    while enter_next(alloc, disk, scanner, machine, manifests)? {}
    Ok(())
}

// Enters what the record at the next gate stands for. False at a gate that isn't open, with which
// the records end.
fn enter_next<D: Disk>(
    alloc: Global,
    disk: &mut D,
    scanner: &mut Scanner,
    machine: &mut Machine,
    manifests: &mut ManifestStore,
) -> Result<bool, OpenFault>
    requires at { IsAt (D.meaning disk.old) machine.old.header machine.old.history scanner.old.gate scanner.old }
    requires manifests { AreManifests (known machine.old.history) manifests.old }
    ensures more { IfOk result (λ more. OnTrue more (IsAt (D.meaning disk.new) machine.new.header machine.new.history scanner.new.gate scanner.new)) }
    ensures onward { IfOk result (λ more. OnTrue more ((scanner.old.gate < scanner.new.gate) × (scanner.new.gate ≤ scanner.old.size))) }
    ensures read { IfOk result (λ more. OnFalse more (IsRead (D.meaning disk.new) machine.new.header machine.new.history)) }
    ensures header { machine.new.header ≡ machine.old.header }
    ensures manifests { AreManifests (known machine.new.history) manifests.new }
    ensures size { scanner.new.size ≡ scanner.old.size }
    ensures refused { IfErr result (λ e. IsTrue (D.meaning disk.old).honest → IsRefused (D.meaning disk.old).state.reads e) }
    ensures looked { Looked (D.meaning disk.old) (D.meaning disk.new) }
    ensures spares { Spares (D.meaning disk.old) (D.meaning disk.new) (is_disk_fault result) }
    ensures quiet { IsSome (D.meaning disk.old).quiet → is_disk_fault result ≡ false }
{
    let gate = scanner.gate();
    match scanner.next(disk)? {
        Step::Closed => Ok(false),
        Step::Bad { at } => Err(OpenFault::Damaged { at }),
        Step::Record(span) => {
            enter_record(alloc, disk, scanner, machine, manifests, gate, span)?;
            Ok(true)
        }
    }
}

// Enters what the payload at these places stands for, behind this gate.
fn enter_record<D: Disk>(
    alloc: Global,
    disk: &mut D,
    scanner: &mut Scanner,
    machine: &mut Machine,
    manifests: &mut ManifestStore,
    gate: u64,
    span: Span,
) -> Result<(), OpenFault>
    requires before { IsAt (D.meaning disk.old) machine.old.header machine.old.history gate scanner.old }
    requires manifests { AreManifests (known machine.old.history) manifests.old }
    requires next { IsNext gate scanner.old.size (Record span) }
    requires step { IsTrue (D.meaning disk.old).honest → step_at (D.meaning disk.old).state.reads gate ≡ Record span }
    ensures behind { OnOk result (IsAt (D.meaning disk.new) machine.new.header machine.new.history (span.at + span.length) scanner.new) }
    ensures header { machine.new.header ≡ machine.old.header }
    ensures manifests { AreManifests (known machine.new.history) manifests.new }
    ensures gate { scanner.new.gate ≡ scanner.old.gate }
    ensures size { scanner.new.size ≡ scanner.old.size }
    ensures refused { IfErr result (λ e. IsTrue (D.meaning disk.old).honest → IsRefused (D.meaning disk.old).state.reads e) }
    ensures looked { Looked (D.meaning disk.old) (D.meaning disk.new) }
    ensures spares { Spares (D.meaning disk.old) (D.meaning disk.new) (is_disk_fault result) }
    ensures quiet { IsSome (D.meaning disk.old).quiet → is_disk_fault result ≡ false }
{
    if span.length as usize > MOST_PAYLOAD {
        return Err(OpenFault::Damaged { at: gate });
    }
    scanner.hold(disk, span)?;
    match enter_payload(alloc, disk, machine, manifests, scanner.held(span)) {
        Ok(()) => Ok(()),
        Err(ReplayFault::BadPayload) => Err(OpenFault::Damaged { at: gate }),
        Err(ReplayFault::DiskFault) => Err(OpenFault::DiskFault),
        Err(ReplayFault::Memory) => Err(OpenFault::Memory),
    }
}
