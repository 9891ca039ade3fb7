//! What a seat is told of what another seat has stored.
ghost use Rattle.std.specs.Prelude.{◌≡◌};
ghost use Rattle.bookmark_lock.specs.Place.{moved};
ghost use Rattle.repo_state.specs.State.{IsAllSealed};

use crate::looks::tell;
use crate::repository::new_repository;
use crate::steps::{id, main_name, run_at};
use blob_disk::Disk;
use node_table::Roots;
use object_id::Id;
use repo_calls::{AskFault, Seen};
use repo_path::RepoPath;
use repo_state::RepoState;
use shared_repo::{Repo, RepoSeat};
use std::alloc::{AllocError, Global};
use std::process::Abort;
use std::sync::Wait;
use std::test::Fail;

// A changeset without changes, its child that sets `p` to `abc`, and `main` there; then one that takes `p` away, and one that
// sets it again.
const STORED: &str = "\
content abc = done
changeset 4301000001610000000000000000000000000000000000000000 = done
changeset 430101ffb74880ae0d3038b6e6e402ea0840634c79efb3c927e280d44f36567ece7169000161000000000000000000000000000000000000000100017001000000000000000003ba7816bf8f01cfea414140de5dae2223b00361a396177a9cb410ff61f20015ad = done
move - e8795b6f358309976a85a48b88590a7b77ffcdc1ce55d29a761853d4ff0669f0 = done
changeset 430101e8795b6f358309976a85a48b88590a7b77ffcdc1ce55d29a761853d4ff0669f0000161000000000000000000000000000000000000000100017000 = done
changeset 430101b2bed93a6b8be3c2b2330589fda2906eaed9c952f823aaf09d51ccb9f7c43104000161000000000000000000000000000000000000000100017001000000000000000003ba7816bf8f01cfea414140de5dae2223b00361a396177a9cb410ff61f20015ad = done";

// Reads, and what they tell: the ids of a changeset's root fsnode, root unode and root deleted node, bytes of nodes,
// and entries of the log.
// Ids are SHA-256 (FIPS 180-4) of the bytes. No changeset has the third id, and nothing is at `q`.
const SEEN: &str = "\
roots e8795b6f358309976a85a48b88590a7b77ffcdc1ce55d29a761853d4ff0669f0 = 36e6592b894c06d9c9e1094cea7485f777ee5f383e6b33ee39a311fdd78761ad 9f7c1e7f1b51f1ce2df2bc6d46c90a9269d8e85e462e1d529dd67ce1d4da7c29 2870d36c41c014ebcbe9972d24b542621e9b4be8399630e2a10cfa7cc3eb2e46
roots ffb74880ae0d3038b6e6e402ea0840634c79efb3c927e280d44f36567ece7169 = 702db16de9a1c44301e07731bf5464bd76da2ad7b35d676037a87fc045159af4 eacb0d21f6b8017700a05579119b7116b63959b732397837f5acdb7c875dee91 2870d36c41c014ebcbe9972d24b542621e9b4be8399630e2a10cfa7cc3eb2e46
roots ba7816bf8f01cfea414140de5dae2223b00361a396177a9cb410ff61f20015ad = no changeset
head = e8795b6f358309976a85a48b88590a7b77ffcdc1ce55d29a761853d4ff0669f0
content ba7816bf8f01cfea414140de5dae2223b00361a396177a9cb410ff61f20015ad = 616263
changeset e8795b6f358309976a85a48b88590a7b77ffcdc1ce55d29a761853d4ff0669f0 = 430101ffb74880ae0d3038b6e6e402ea0840634c79efb3c927e280d44f36567ece7169000161000000000000000000000000000000000000000100017001000000000000000003ba7816bf8f01cfea414140de5dae2223b00361a396177a9cb410ff61f20015ad
fsnode ffb74880ae0d3038b6e6e402ea0840634c79efb3c927e280d44f36567ece7169 = 46010000000000000000000000000000000000000000000000000000000000000000000000000000000000000000
fsnode e8795b6f358309976a85a48b88590a7b77ffcdc1ce55d29a761853d4ff0669f0 = 46010000000000000001000000000000000300000000000000000000000000000001000000000000000300000001017000000000000000000003ba7816bf8f01cfea414140de5dae2223b00361a396177a9cb410ff61f20015ad
fsnode e8795b6f358309976a85a48b88590a7b77ffcdc1ce55d29a761853d4ff0669f0 q = no path
unode e8795b6f358309976a85a48b88590a7b77ffcdc1ce55d29a761853d4ff0669f0 p = 560100ba7816bf8f01cfea414140de5dae2223b00361a396177a9cb410ff61f20015ad00148de9c5a7a44d19e56cd9ae1a554bf67847afb0c58f6e12fa29ac7ddfca9940e8795b6f358309976a85a48b88590a7b77ffcdc1ce55d29a761853d4ff0669f0
history e8795b6f358309976a85a48b88590a7b77ffcdc1ce55d29a761853d4ff0669f0 p = 1 e8795b6f358309976a85a48b88590a7b77ffcdc1ce55d29a761853d4ff0669f0
deleted e8795b6f358309976a85a48b88590a7b77ffcdc1ce55d29a761853d4ff0669f0 p = no path
deleted b2bed93a6b8be3c2b2330589fda2906eaed9c952f823aaf09d51ccb9f7c43104 p = 440101b2bed93a6b8be3c2b2330589fda2906eaed9c952f823aaf09d51ccb9f7c4310400000000
deleted b2bed93a6b8be3c2b2330589fda2906eaed9c952f823aaf09d51ccb9f7c43104 = 44010000000001017016c4dbc94cde782b59e5eb6156e82646af642b4aa5fc8a066cd665dda8b66c53
deleted 1c7791ec52a83c3c3d4a1c8f4fa36002f4a73548be401868f074eb6d70bb6739 p = no path
pathlog b2bed93a6b8be3c2b2330589fda2906eaed9c952f823aaf09d51ccb9f7c43104 p = 2 b2bed93a6b8be3c2b2330589fda2906eaed9c952f823aaf09d51ccb9f7c43104 e8795b6f358309976a85a48b88590a7b77ffcdc1ce55d29a761853d4ff0669f0
pathlog 1c7791ec52a83c3c3d4a1c8f4fa36002f4a73548be401868f074eb6d70bb6739 p = 3 1c7791ec52a83c3c3d4a1c8f4fa36002f4a73548be401868f074eb6d70bb6739 b2bed93a6b8be3c2b2330589fda2906eaed9c952f823aaf09d51ccb9f7c43104 e8795b6f358309976a85a48b88590a7b77ffcdc1ce55d29a761853d4ff0669f0
pathlog 1c7791ec52a83c3c3d4a1c8f4fa36002f4a73548be401868f074eb6d70bb6739 q = no path
log 1 = 6, changeset ffb74880ae0d3038b6e6e402ea0840634c79efb3c927e280d44f36567ece7169, changeset e8795b6f358309976a85a48b88590a7b77ffcdc1ce55d29a761853d4ff0669f0, move main - e8795b6f358309976a85a48b88590a7b77ffcdc1ce55d29a761853d4ff0669f0, changeset b2bed93a6b8be3c2b2330589fda2906eaed9c952f823aaf09d51ccb9f7c43104, changeset 1c7791ec52a83c3c3d4a1c8f4fa36002f4a73548be401868f074eb6d70bb6739";

fn tell_roots(alloc: Global, answer: Result<Roots, AskFault>) -> Result<String, Fail> {
    match answer {
        Ok(roots) => {
            let fsnode = roots.fsnode.to_hex(alloc)?;
            let unode = roots.unode.to_hex(alloc)?;
            let deleted = roots.deleted.to_hex(alloc)?;
            Ok(format!(in alloc; "{fsnode} {unode} {deleted}")?)
        }
        Err(fault) => tell(alloc, Err(fault)),
    }
}

// What a read tells.
fn told<R: Wait, D: Disk>(
    rt: &R,
    alloc: Global,
    repo: &Repo<D>,
    seat: &mut RepoSeat,
    read: &str,
) -> Result<String, Fail>
    requires place { seat.old.lock ≡ repo.now }
    ensures seat { seat.new ≡ moved seat.old seat.new }
{
    let (word, rest) = read.split_once(" ").unwrap_or((read, ""));
    match word {
        "head" => told_head(rt, alloc, repo, seat),
        "log" => told_log(rt, alloc, repo, seat, rest),
        _ => told_of(rt, alloc, repo, seat, word, rest),
    }
}

fn told_head<R: Wait, D: Disk>(
    rt: &R,
    alloc: Global,
    repo: &Repo<D>,
    seat: &mut RepoSeat,
) -> Result<String, Fail>
    requires place { seat.old.lock ≡ repo.now }
    ensures seat { seat.new ≡ moved seat.old seat.new }
{
    let name = main_name(alloc)?;
    tell(alloc, Ok(Seen::Head(repo.head(rt, seat, &name))))
}

fn told_log<R: Wait, D: Disk>(
    rt: &R,
    alloc: Global,
    repo: &Repo<D>,
    seat: &mut RepoSeat,
    from: &str,
) -> Result<String, Fail>
    requires place { seat.old.lock ≡ repo.now }
    ensures seat { seat.new ≡ moved seat.old seat.new }
{
    let from = from.parse()?;
    tell(alloc, repo.log(rt, alloc, seat, from))
}

// What is told of a content or a changeset, by its digits, and of a path behind them.
fn told_of<R: Wait, D: Disk>(
    rt: &R,
    alloc: Global,
    repo: &Repo<D>,
    seat: &mut RepoSeat,
    word: &str,
    rest: &str,
) -> Result<String, Fail>
    requires place { seat.old.lock ≡ repo.now }
    ensures seat { seat.new ≡ moved seat.old seat.new }
{
    let (digits, path) = rest.split_once(" ").unwrap_or((rest, ""));
    let id = id(digits)?;
    match word {
        "roots" => tell_roots(alloc, repo.derive_one(rt, alloc, seat, id)),
        "content" => tell(alloc, repo.content(rt, alloc, seat, id)),
        "changeset" => tell(alloc, repo.changeset(rt, alloc, seat, id)),
        _ => told_at(rt, alloc, repo, seat, word, id, path),
    }
}

// What is told of a path in a changeset's tree, and of the root where it is no path.
fn told_at<R: Wait, D: Disk>(
    rt: &R,
    alloc: Global,
    repo: &Repo<D>,
    seat: &mut RepoSeat,
    word: &str,
    id: Id,
    path: &str,
) -> Result<String, Fail>
    requires place { seat.old.lock ≡ repo.now }
    ensures seat { seat.new ≡ moved seat.old seat.new }
{
    let path = RepoPath::parse(alloc, path).ok();
    match (word, &path) {
        ("fsnode", path) => tell(alloc, repo.fsnode(rt, alloc, seat, id, path.as_ref())),
        ("unode", path) => tell(alloc, repo.unode(rt, alloc, seat, id, path.as_ref())),
        ("history", Some(path)) => tell(alloc, repo.history(rt, alloc, seat, id, path)),
        ("deleted", path) => tell(alloc, repo.deleted(rt, alloc, seat, id, path.as_ref())),
        ("pathlog", Some(path)) => tell(alloc, repo.path_log(rt, alloc, seat, id, path)),
        _ => Err(Fail::from("a read")),
    }
}

fn check_row<R: Abort + Wait, D: Disk>(
    rt: &R,
    alloc: Global,
    repo: &Repo<D>,
    seat: &mut RepoSeat,
    row: &str,
) -> Result<(), Fail>
    requires place { seat.old.lock ≡ repo.now }
    ensures seat { seat.new ≡ moved seat.old seat.new }
{
    let (read, wanted) = row.split_once(" = ").ok_or("a line")?;
    let told = told(rt, alloc, repo, seat, read)?;
    assert_eq!(rt; told.as_str(), wanted, "{row}");
    Ok(())
}

fn check_rows<R: Abort + Wait, D: Disk>(
    rt: &R,
    alloc: Global,
    repo: &Repo<D>,
    seat: &mut RepoSeat,
) -> Result<(), Fail>
    requires place { seat.old.lock ≡ repo.now }
{
    for row in SEEN.lines() {
        check_row(rt, alloc, repo, seat, row)?;
    }
    Ok(())
}

// One seat stores, and another, which has seen nothing yet, asks.
fn run_derived<R: Abort + Wait, D: Disk>(
    rt: &R,
    alloc: Global,
    state: RepoState<D>,
) -> Result<(), Fail>
    requires sealed { IsAllSealed state.history state.sealed }
{
    let Ok((repo, mut lead)) = Repo::new(alloc, state) else {
        return Err(Fail::from(AllocError));
    };
    let mut other = repo.split(&mut lead);
    run_at(rt, alloc, &repo, lead, STORED)?;
    check_rows(rt, alloc, &repo, &mut other)
}

#[test]
fn a_seat_is_told_what_another_stored(rt: HostRuntime) -> Result<(), Fail> {
    let alloc = rt.alloc();
    run_derived(&rt, alloc, new_repository(alloc, &[])?)
}

// The changeset without changes, and its id.
const EMPTY: &str = "4301000001610000000000000000000000000000000000000000";

const EMPTY_ID: &str = "ffb74880ae0d3038b6e6e402ea0840634c79efb3c927e280d44f36567ece7169";

// Stores a changeset.
fn put<R: Wait, D: Disk>(rt: &R, alloc: Global, repo: &Repo<D>, seat: &mut RepoSeat, bytes: &[u8])
    requires place { seat.old.lock ≡ repo.now }
    ensures seat { seat.new ≡ moved seat.old seat.new }
{
    let _stored = repo.put_changeset(rt, alloc, seat, bytes);
}

// Asks for the roots of a changeset, or doesn't.
fn ask<R: Wait, D: Disk>(
    rt: &R,
    alloc: Global,
    repo: &Repo<D>,
    seat: &mut RepoSeat,
    id: Id,
    asks: bool,
)
    requires place { seat.old.lock ≡ repo.now }
    ensures seat { seat.new ≡ moved seat.old seat.new }
{
    if asks {
        let _roots = repo.derive_one(rt, alloc, seat, id);
    }
}

// The repository that is closed once a changeset was stored, and its roots were asked for or weren't.
fn closed<R: Wait, D: Disk>(
    rt: &R,
    alloc: Global,
    state: RepoState<D>,
    bytes: &[u8],
    id: Id,
    asks: bool,
) -> Result<RepoState<D>, AllocError>
    requires sealed { IsAllSealed state.history state.sealed }
{
    let Ok((repo, mut lead)) = Repo::new(alloc, state) else {
        return Err(AllocError);
    };
    put(rt, alloc, &repo, &mut lead, bytes);
    ask(rt, alloc, &repo, &mut lead, id, asks);
    Ok(repo.close(lead))
}

// Whether nothing is left to derive of a changeset.
fn is_done<D: Disk>(alloc: Global, state: &RepoState<D>, id: Id) -> Result<bool, Fail> {
    match state.next_job(alloc, id) {
        Ok(job) => Ok(job.is_none()),
        Err(_) => Err(Fail::from("a changeset")),
    }
}

// The same, once it was stored in a repository, and its roots were asked for or weren't.
fn is_derived_in<R: Wait, D: Disk>(
    rt: &R,
    alloc: Global,
    state: RepoState<D>,
    bytes: &[u8],
    id: Id,
    asks: bool,
) -> Result<bool, Fail>
    requires sealed { IsAllSealed state.history state.sealed }
{
    let state = closed(rt, alloc, state, bytes, id, asks)?;
    is_done(alloc, &state, id)
}

// The same of the changeset without changes.
fn is_derived<R: Wait>(rt: &R, alloc: Global, asks: bool) -> Result<bool, Fail> {
    let bytes = hex::decode(alloc, EMPTY)?;
    let id = id(EMPTY_ID)?;
    let state = new_repository(alloc, &[])?;
    is_derived_in(rt, alloc, state, bytes.as_slice(), id, asks)
}

#[test]
fn nothing_is_left_to_derive_once_roots_are_told(rt: HostRuntime) -> Result<(), Fail> {
    assert!(rt; is_derived(&rt, rt.alloc(), true)?);
    assert!(rt; !is_derived(&rt, rt.alloc(), false)?);
    Ok(())
}
