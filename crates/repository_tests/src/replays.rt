//! Payloads of entries, entered one after another.
ghost use Rattle.std.specs.Prelude.{◌≡◌, IsTrue};
ghost use Rattle.history_model.specs.History.{known, stored};
ghost use Rattle.history_model.specs.Journal.{is_header};
ghost use Rattle.reply_model.specs.Legal.{IsLegal};
ghost use Rattle.manifest_store.specs.Manifests.{AreManifests};

use crate::rows::same;
use crate::steps::{log_text, new_run, run_lines};
use blob_disk::{Disk, MemDisk};
use bonsai::Version;
use manifest_store::ManifestStore;
use ports::ZeroBytes;
use recovery::{ReplayFault, enter_payload};
use repo_machine::Machine;
use std::alloc::Global;
use std::hash::RandomState;
use std::process::Abort;
use std::test::Fail;

// Payloads of a content, of a root and of `main` at it, of two drafts upon it and of their landings, which another program
// spelled. `+` is entered, and `-` doesn't come next: in turn the changeset isn't known yet, the content is there already,
// the landing is upon another head, and the draft has to be rewritten.
const PAYLOADS: &str = "\
4d046d61696e0001ffb74880ae0d3038b6e6e402ea0840634c79efb3c927e280d44f36567ece7169 = -
42616263 = +
42616263 = -
4301000001610000000000000000000000000000000000000000 = +
4d046d61696e0001ffb74880ae0d3038b6e6e402ea0840634c79efb3c927e280d44f36567ece7169 = +
430101ffb74880ae0d3038b6e6e402ea0840634c79efb3c927e280d44f36567ece7169000161000000000000000000000000000000000000000100017001000000000000000003ba7816bf8f01cfea414140de5dae2223b00361a396177a9cb410ff61f20015ad = +
430101ffb74880ae0d3038b6e6e402ea0840634c79efb3c927e280d44f36567ece7169000161000000000000000000000000000000000000000100017101000000000000000003ba7816bf8f01cfea414140de5dae2223b00361a396177a9cb410ff61f20015ad = +
4c046d61696ee8795b6f358309976a85a48b88590a7b77ffcdc1ce55d29a761853d4ff0669f04243386b11aa7329d903967cff1321973ab33d090cb7df2fd2a1cf366de0e921000100000067430101e8795b6f358309976a85a48b88590a7b77ffcdc1ce55d29a761853d4ff0669f0000161000000000000000000000000000000000000000100017101000000000000000003ba7816bf8f01cfea414140de5dae2223b00361a396177a9cb410ff61f20015ad = -
4c046d61696effb74880ae0d3038b6e6e402ea0840634c79efb3c927e280d44f36567ece7169e8795b6f358309976a85a48b88590a7b77ffcdc1ce55d29a761853d4ff0669f0000100000067430101ffb74880ae0d3038b6e6e402ea0840634c79efb3c927e280d44f36567ece7169000161000000000000000000000000000000000000000100017001000000000000000003ba7816bf8f01cfea414140de5dae2223b00361a396177a9cb410ff61f20015ad = +
4c046d61696ee8795b6f358309976a85a48b88590a7b77ffcdc1ce55d29a761853d4ff0669f04243386b11aa7329d903967cff1321973ab33d090cb7df2fd2a1cf366de0e921000100000067430101ffb74880ae0d3038b6e6e402ea0840634c79efb3c927e280d44f36567ece7169000161000000000000000000000000000000000000000100017101000000000000000003ba7816bf8f01cfea414140de5dae2223b00361a396177a9cb410ff61f20015ad = -
4c046d61696ee8795b6f358309976a85a48b88590a7b77ffcdc1ce55d29a761853d4ff0669f04243386b11aa7329d903967cff1321973ab33d090cb7df2fd2a1cf366de0e921000100000067430101e8795b6f358309976a85a48b88590a7b77ffcdc1ce55d29a761853d4ff0669f0000161000000000000000000000000000000000000000100017101000000000000000003ba7816bf8f01cfea414140de5dae2223b00361a396177a9cb410ff61f20015ad = +";

// The same changes.
const CHANGES: &str = "\
content abc
line - 1 0
move 0
change 0 p:abc
change 0 q:abc
land 1 = 1 kept
land 2 = 1 new";

// The same behind policies, in a file of the second version. What doesn't come next: a policy without a caller and one
// without an end, and a landing that tells a caller before there is a policy; behind the one of `ann` a landing that tells
// none, the same and a policy by `bob`, whom it doesn't allow, and a content with a caller.
const UNDER_POLICIES: &str = "\
42616263 = +
4301000001610000000000000000000000000000000000000000 = +
4d046d61696e0001ffb74880ae0d3038b6e6e402ea0840634c79efb3c927e280d44f36567ece7169 = +
430101ffb74880ae0d3038b6e6e402ea0840634c79efb3c927e280d44f36567ece7169000161000000000000000000000000000000000000000100017001000000000000000003ba7816bf8f01cfea414140de5dae2223b00361a396177a9cb410ff61f20015ad = +
430101ffb74880ae0d3038b6e6e402ea0840634c79efb3c927e280d44f36567ece7169000161000000000000000000000000000000000000000100017101000000000000000003ba7816bf8f01cfea414140de5dae2223b00361a396177a9cb410ff61f20015ad = +
52616c6c6f7720616e6e202f0a = -
4103616e6e52616c6c6f7720616e6e202f = -
4103616e6e4c046d61696effb74880ae0d3038b6e6e402ea0840634c79efb3c927e280d44f36567ece7169e8795b6f358309976a85a48b88590a7b77ffcdc1ce55d29a761853d4ff0669f0000100000067430101ffb74880ae0d3038b6e6e402ea0840634c79efb3c927e280d44f36567ece7169000161000000000000000000000000000000000000000100017001000000000000000003ba7816bf8f01cfea414140de5dae2223b00361a396177a9cb410ff61f20015ad = -
4103616e6e52616c6c6f7720616e6e202f0a = +
4c046d61696effb74880ae0d3038b6e6e402ea0840634c79efb3c927e280d44f36567ece7169e8795b6f358309976a85a48b88590a7b77ffcdc1ce55d29a761853d4ff0669f0000100000067430101ffb74880ae0d3038b6e6e402ea0840634c79efb3c927e280d44f36567ece7169000161000000000000000000000000000000000000000100017001000000000000000003ba7816bf8f01cfea414140de5dae2223b00361a396177a9cb410ff61f20015ad = -
4103626f624c046d61696effb74880ae0d3038b6e6e402ea0840634c79efb3c927e280d44f36567ece7169e8795b6f358309976a85a48b88590a7b77ffcdc1ce55d29a761853d4ff0669f0000100000067430101ffb74880ae0d3038b6e6e402ea0840634c79efb3c927e280d44f36567ece7169000161000000000000000000000000000000000000000100017001000000000000000003ba7816bf8f01cfea414140de5dae2223b00361a396177a9cb410ff61f20015ad = -
4103626f6252616c6c6f77202a202f0a = -
4103616e6e4278 = -
4103616e6e4c046d61696effb74880ae0d3038b6e6e402ea0840634c79efb3c927e280d44f36567ece7169e8795b6f358309976a85a48b88590a7b77ffcdc1ce55d29a761853d4ff0669f0000100000067430101ffb74880ae0d3038b6e6e402ea0840634c79efb3c927e280d44f36567ece7169000161000000000000000000000000000000000000000100017001000000000000000003ba7816bf8f01cfea414140de5dae2223b00361a396177a9cb410ff61f20015ad = +
4103616e6e52616c6c6f77202a202f0a = +
4103626f624c046d61696ee8795b6f358309976a85a48b88590a7b77ffcdc1ce55d29a761853d4ff0669f04243386b11aa7329d903967cff1321973ab33d090cb7df2fd2a1cf366de0e921000100000067430101e8795b6f358309976a85a48b88590a7b77ffcdc1ce55d29a761853d4ff0669f0000161000000000000000000000000000000000000000100017101000000000000000003ba7816bf8f01cfea414140de5dae2223b00361a396177a9cb410ff61f20015ad = +
4103626f624d046d61696e01c963436e7f2c1e25fefa25123ecdfbab8618c235c3261f837fb3b6eafb77093b01ffb74880ae0d3038b6e6e402ea0840634c79efb3c927e280d44f36567ece7169 = +";

const CHANGES_UNDER_POLICIES: &str = "\
content abc
line - 1 0
move 0
change 0 p:abc
change 0 q:abc
as ann
policy allow ann /; = 5
land 1 = 1 kept
policy allow * /; = 7
as bob
land 2 = 1 new
move 0";

// In a file of the first version there is no policy.
const OLD: &str = "\
42616263 = +
4301000001610000000000000000000000000000000000000000 = +
4103616e6e52616c6c6f7720616e6e202f0a = -";

const OLD_CHANGES: &str = "\
content abc
line - 1 0";

// Enters a payload in hex digits, if it is the entry that comes next.
fn enter(
    alloc: Global,
    disk: &mut MemDisk,
    machine: &mut Machine,
    manifests: &mut ManifestStore,
    digits: &str,
) -> Result<&'static str, Fail>
    requires limits { IsTrue (is_header machine.old.header) }
    requires legal { IsLegal machine.old.header machine.old.history }
    requires stored { machine.old.history ≡ stored machine.old.history }
    requires manifests { AreManifests (known machine.old.history) manifests.old }
    ensures limits { IsTrue (is_header machine.new.header) }
    ensures legal { IsLegal machine.new.header machine.new.history }
    ensures stored { machine.new.history ≡ stored machine.new.history }
    ensures manifests { AreManifests (known machine.new.history) manifests.new }
{
    let payload = hex::decode(alloc, digits)?;
    let Ok(size) = disk.size() else {
        return Err(Fail::from("size"));
    };
    if size < machine.size() {
        return Err(Fail::from("a short disk"));
    }
    match enter_payload(alloc, disk, machine, manifests, payload.as_slice()) {
        Ok(()) => Ok("+"),
        Err(ReplayFault::BadPayload) => Ok("-"),
        Err(ReplayFault::DiskFault) => Err(Fail::from("the disk")),
        Err(ReplayFault::Memory) => Err(Fail::from("memory")),
    }
}

fn enter_all(
    rt: &impl Abort,
    alloc: Global,
    disk: &mut MemDisk,
    machine: &mut Machine,
    manifests: &mut ManifestStore,
    rows: &str,
) -> Result<(), Fail>
    requires limits { IsTrue (is_header machine.old.header) }
    requires legal { IsLegal machine.old.header machine.old.history }
    requires stored { machine.old.history ≡ stored machine.old.history }
    requires manifests { AreManifests (known machine.old.history) manifests.old }
{
    'rows: for row in rows.lines() {
        let (digits, wanted) = row.split_once(" = ").unwrap_or((row, ""));
        let told = enter(alloc, disk, machine, manifests, digits)?;
        same(rt, told, wanted, row);
    }
    Ok(())
}

// The log and the counts.
fn state(alloc: Global, machine: &Machine) -> Result<String, Fail> {
    let mut state = log_text(alloc, machine)?;
    write!(state, " {:?}", machine.counts())?;
    Ok(state)
}

// A disk that is as long as a file may become. No parts of a whole stand on it.
fn empty_disk(alloc: Global) -> Result<MemDisk, Fail> {
    let mut file = Vec::new(alloc);
    file.resize(65_536, 0)?;
    Ok(MemDisk::holding(alloc, file.as_slice(), 65_536, Vec::new(alloc))?)
}

// What is there once these are entered in a file of this version.
fn entered(
    rt: &impl Abort,
    alloc: Global,
    version: Version,
    payloads: &str,
) -> Result<String, Fail> {
    let mut machine = Machine::new(alloc, RandomState::new(&ZeroBytes)?, 65_536, version);
    let mut disk = empty_disk(alloc)?;
    let mut manifests = ManifestStore::new(alloc);
    enter_all(rt, alloc, &mut disk, &mut machine, &mut manifests, payloads)?;
    state(alloc, &machine)
}

// What is there after these changes.
fn changed(
    rt: &impl Abort,
    alloc: Global,
    version: Version,
    changes: &str,
) -> Result<String, Fail> {
    let mut run = new_run(alloc, 65_536, version)?;
    run_lines(rt, alloc, &mut run, changes)?;
    state(alloc, &run.machine)
}

#[test]
fn payloads_are_entered_where_they_come_next(rt: HostRuntime) -> Result<(), Fail> {
    for (version, payloads, changes) in [
        (Version::First, PAYLOADS, CHANGES),
        (Version::Second, PAYLOADS, CHANGES),
        (Version::First, OLD, OLD_CHANGES),
        (Version::Second, UNDER_POLICIES, CHANGES_UNDER_POLICIES),
    ] {
        let entered = entered(&rt, rt.alloc(), version, payloads)?;
        let changed = changed(&rt, rt.alloc(), version, changes)?;
        same(&rt, entered.as_str(), changed.as_str(), changes);
    }
    Ok(())
}
