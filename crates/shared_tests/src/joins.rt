//! Contents that are joined at a seat, of which the disk reads some or gives other bytes.
ghost use Rattle.repo_state.specs.State.{IsAllSealed};

use crate::repository::{recorded_repository, repository_on};
use crate::steps::run_at;
use crate::swapping::Swapping;
use blob_disk::{CallKind, Disk};
use repo_state::RepoState;
use shared_repo::Repo;
use std::alloc::{AllocError, Global};
use std::process::Abort;
use std::sync::Wait;
use std::test::Fail;

// The id of `abc` twice. A read that fails is no entry of the log, and nothing but that read failed.
const UNREAD: &str = "\
content abc = done
whole ba7816bf8f01cfea414140de5dae2223b00361a396177a9cb410ff61f20015adba7816bf8f01cfea414140de5dae2223b00361a396177a9cb410ff61f20015ad = ReadFault
total = 1
whole ba7816bf8f01cfea414140de5dae2223b00361a396177a9cb410ff61f20015adba7816bf8f01cfea414140de5dae2223b00361a396177a9cb410ff61f20015ad = done
content abcabc = done
total = 2";

// The other id is that of `cba`.
const MISREAD: &str = "\
content abc = done
whole ba7816bf8f01cfea414140de5dae2223b00361a396177a9cb410ff61f20015ad = ba7816bf8f01cfea414140de5dae2223b00361a396177a9cb410ff61f20015ad is 6d970874d0db767a7058798973f22cf6589601edab57996312f2ef7b56e5584d
content  = done
total = 2";

// The first seat does the steps of a script.
fn run_first<R: Abort + Wait, D: Disk>(
    rt: &R,
    alloc: Global,
    state: RepoState<D>,
    script: &str,
) -> Result<(), Fail>
    requires sealed { IsAllSealed state.history state.sealed }
{
    let Ok((repo, lead)) = Repo::new(alloc, state) else {
        return Err(Fail::from(AllocError));
    };
    run_at(rt, alloc, &repo, lead, script)
}

// The file of a new repository is read twice, where it is opened.
#[test]
fn a_read_that_fails_while_contents_are_joined_is_tried_again(rt: HostRuntime) -> Result<(), Fail> {
    let alloc = rt.alloc();
    let state = recorded_repository(alloc, Some((CallKind::Read, 2)))?;
    run_first(&rt, alloc, state, UNREAD)
}

#[test]
fn contents_with_other_bytes_are_named_and_not_joined(rt: HostRuntime) -> Result<(), Fail> {
    let alloc = rt.alloc();
    run_first(&rt, alloc, repository_on(alloc, Swapping::new())?, MISREAD)
}
