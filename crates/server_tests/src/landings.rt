//! Two landings at once, and which changesets are derived then.
use crate::repository::new_repository;
use crate::serving::{MOST_DERIVERS, serve};
use crate::watched::Watched;
use blob_disk::{Disk, MemDisk};
use object_id::Id;
use ports::{MemAccept, MemLink, NoGate};
use repo_calls::Ask;
use repo_path::BookName;
use repo_state::{Alone, RepoState};
use server_lanes::Closing;
use std::alloc::{AllocError, Global};
use std::process::Abort;
use std::sync::Wait;
use std::sync::atomic::{AtomicU64, Ordering};
use std::test::Fail;
use std::thread::Threads;

// A changeset without parents and edits, and two upon it that set the content `abc` at the paths `p` and `x`.
const ROOT: &str = "4301000001610000000000000000000000000000000000000000";

const DRAFTS: &str = "\
430101ffb74880ae0d3038b6e6e402ea0840634c79efb3c927e280d44f36567ece7169000161000000000000000000000000000000000000000100017001000000000000000003ba7816bf8f01cfea414140de5dae2223b00361a396177a9cb410ff61f20015ad
430101ffb74880ae0d3038b6e6e402ea0840634c79efb3c927e280d44f36567ece7169000161000000000000000000000000000000000000000100017801000000000000000003ba7816bf8f01cfea414140de5dae2223b00361a396177a9cb410ff61f20015ad";

const LANDED: &[u8] = b"\r\n\r\n{\"code\":\"landed\"";

fn change(alloc: Global, alone: &mut Alone<MemDisk>, ask: &Ask) -> Result<(), Fail> {
    if alone.store(alloc, ask).is_err() {
        return Err(Fail::from("a change"));
    }
    Ok(())
}

fn name_of(alloc: Global, text: &str) -> Result<BookName, Fail> {
    Ok(BookName::parse(alloc, text)?)
}

// Stores the content and the root, and makes the bookmark there.
fn make_main(alloc: Global, alone: &mut Alone<MemDisk>) -> Result<(), Fail> {
    let (caller, name) = (name_of(alloc, "ann")?, name_of(alloc, "main")?);
    let root = hex::decode(alloc, ROOT)?;
    change(alloc, alone, &Ask::PutContent(b"abc"))?;
    change(alloc, alone, &Ask::PutChangeset(root.as_slice()))?;
    let ask = Ask::SetBookmark {
        caller: &caller,
        name: &name,
        from: None,
        to: Some(Id::of(root.as_slice())),
    };
    change(alloc, alone, &ask)
}

// A repository with the content and the root, where `main` stands.
fn with_main(alloc: Global) -> Result<Alone<MemDisk>, Fail> {
    let mut alone = new_repository(alloc)?;
    make_main(alloc, &mut alone)?;
    Ok(alone)
}

// The request that puts a changeset.
fn put_upload(alloc: Global, out: &mut Vec<u8>, bytes: &[u8]) -> Result<(), Fail> {
    let length = bytes.len();
    let head = format!(in alloc; "PUT /changeset HTTP/1.1\r\nContent-Length: {length}\r\n\r\n")?;
    out.extend_from_slice(head.as_bytes())?;
    Ok(out.extend_from_slice(bytes)?)
}

// The request that lands a draft.
fn put_landing(alloc: Global, out: &mut Vec<u8>, draft: Id) -> Result<(), Fail> {
    let digits = hex::encode(alloc, draft.as_bytes())?;
    let digits = digits.as_str();
    let land = format!(in alloc; "POST /land/main/{digits} HTTP/1.1\r\n\r\n")?;
    Ok(out.extend_from_slice(land.as_bytes())?)
}

// The requests that put a draft and land it.
fn input_of(alloc: Global, draft: &str) -> Result<Vec<u8>, Fail> {
    let mut input = Vec::new(alloc);
    let bytes = hex::decode(alloc, draft)?;
    put_upload(alloc, &mut input, bytes.as_slice())?;
    put_landing(alloc, &mut input, Id::of(bytes.as_slice()))?;
    Ok(input)
}

fn link_with(alloc: Global, input: Vec<u8>) -> Result<MemLink, AllocError> {
    MemLink::new(
        alloc,
        input,
        65_536,
        65_536,
        Vec::new(alloc),
        Vec::new(alloc),
    )
}

// A link on which a draft is put and landed.
fn link_of<'a>(
    alloc: Global,
    draft: &str,
    landed: &'a AtomicU64,
) -> Result<Watched<'a, MemLink>, Fail> {
    let input = input_of(alloc, draft)?;
    let link = link_with(alloc, input)?;
    Ok(Watched::new(link, LANDED, landed))
}

// A link for each draft.
fn accept_of<'a>(
    alloc: Global,
    landed: &'a AtomicU64,
) -> Result<MemAccept<Watched<'a, MemLink>>, Fail> {
    let mut links = Vec::new(alloc);
    for draft in DRAFTS.lines() {
        links.push(link_of(alloc, draft, landed)?)?;
    }
    Ok(MemAccept::new(links, Vec::new(alloc)))
}

// Whether the manifests of a draft are derived.
fn is_derived<D: Disk>(alloc: Global, state: &RepoState<D>, draft: &str) -> Result<bool, Fail> {
    let bytes = hex::decode(alloc, draft)?;
    Ok(state.roots(Id::of(bytes.as_slice())).is_some())
}

// Whether the manifests of both drafts are derived.
fn has_derived<D: Disk>(alloc: Global, state: &RepoState<D>) -> Result<bool, Fail> {
    for draft in DRAFTS.lines() {
        if !is_derived(alloc, state, draft)? {
            return Ok(false);
        }
    }
    Ok(true)
}

// What the landings left: how many were answered and how many links served, how many entries there are, and
// whether the drafts' manifests are derived.
#[derive(Clone, Copy, Debug, PartialEq, Eq)]
struct Left {
    landed: u64,
    served: u64,
    entries: u64,
    derived: bool,
}

fn left_in<D: Disk, A: Drop, L: Drop>(
    alloc: Global,
    closing: Closing<D, A, L>,
    landed: u64,
) -> Result<Left, Fail> {
    if !closing.began {
        return Err(Fail::from("memory"));
    }
    let state = closing.state;
    let derived = has_derived(alloc, &state)?;
    Ok(Left {
        landed,
        served: closing.served.count(),
        entries: state.history_length(),
        derived,
    })
}

fn left_of<R: Threads + Wait + Sync, D: Disk + Send>(
    rt: &R,
    alloc: Global,
    alone: Alone<D>,
    derivers: u64,
) -> Result<Left, Fail>
where
    D::Flush: Send,
    D::Peer: Send,
{
    let landed = AtomicU64::new(0);
    let accept = accept_of(alloc, &landed)?;
    let closing = serve(rt, alloc, alone, accept, &NoGate, 2, derivers, 2)?;
    left_in(alloc, closing, landed.load(Ordering::SeqCst))
}

fn check<R: Abort + Threads + Wait + Sync>(
    rt: &R,
    alloc: Global,
    derivers: u64,
) -> Result<(), Fail> {
    let left = left_of(rt, alloc, with_main(alloc)?, derivers)?;
    let wanted = Left {
        landed: 2,
        served: 2,
        entries: 7,
        derived: derivers > 0,
    };
    assert_eq!(rt; left, wanted, "{derivers} derivers");
    Ok(())
}

// Whether the changeset at which `main` stands is derived in what a server left.
fn head_is_derived_in<D: Disk, A: Drop, L: Drop>(
    alloc: Global,
    closing: Closing<D, A, L>,
) -> Result<bool, Fail> {
    if !closing.began {
        return Err(Fail::from("memory"));
    }
    let state = closing.state;
    is_derived(alloc, &state, ROOT)
}

// The same, once a server that served nothing has ended.
fn head_is_derived<R: Threads + Wait + Sync>(
    rt: &R,
    alloc: Global,
    derivers: u64,
) -> Result<bool, Fail> {
    let accept = MemAccept::<MemLink>::new(Vec::new(alloc), Vec::new(alloc));
    let alone = with_main(alloc)?;
    let closing = serve(rt, alloc, alone, accept, &NoGate, 2, derivers, 2)?;
    head_is_derived_in(alloc, closing)
}

#[test]
fn what_is_landed_is_derived_and_what_bookmarks_are_at_from_the_beginning(
    rt: HostRuntime,
) -> Result<(), Fail> {
    let alloc = rt.alloc();
    check(&rt, alloc, 0)?;
    check(&rt, alloc, MOST_DERIVERS)?;
    assert!(rt; !head_is_derived(&rt, alloc, 0)?);
    assert!(rt; head_is_derived(&rt, alloc, MOST_DERIVERS)?);
    Ok(())
}
