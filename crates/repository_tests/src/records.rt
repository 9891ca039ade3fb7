//! Records of landings, moves and policies. They are those of an independent computation.
use crate::rows::same;
use crate::steps::{Run, ask_as, cut, draft_of, ends_of, new_run, policy_text, run_lines};
use bonsai::Version;
use repo_calls::Refusal;
use repo_machine::Judged;
use std::alloc::Global;
use std::process::Abort;
use std::test::Fail;

// What a step is judged to make.
fn judged(alloc: Global, run: &mut Run, step: &str) -> Result<Result<Judged, Refusal>, Fail> {
    let (word, words) = cut(step);
    match word {
        "move" => judged_move(alloc, run, words),
        "land" => judged_landing(alloc, run, words),
        "policy" => judged_policy(alloc, run, words),
        _ => Err(Fail::from("a step")),
    }
}

fn judged_move(alloc: Global, run: &mut Run, words: &str) -> Result<Result<Judged, Refusal>, Fail> {
    let (from, to) = ends_of(run, words)?;
    Ok(
        run.machine
            .judge_bookmark(alloc, 1, &run.caller, &run.main, from, to),
    )
}

fn judged_landing(
    alloc: Global,
    run: &mut Run,
    words: &str,
) -> Result<Result<Judged, Refusal>, Fail> {
    let (draft, moment) = draft_of(run, words)?;
    Ok(
        run.machine
            .judge_landing(alloc, 1, &run.caller, &run.main, draft, moment),
    )
}

fn judged_policy(
    alloc: Global,
    run: &mut Run,
    words: &str,
) -> Result<Result<Judged, Refusal>, Fail> {
    let text = policy_text(alloc, words)?;
    Ok(
        run.machine
            .judge_policy_of(alloc, 1, &run.caller, text.as_slice()),
    )
}

// The record in hex digits.
fn record_of(alloc: Global, run: &mut Run, step: &str) -> Result<String, Fail> {
    match judged(alloc, run, step)? {
        Ok(judged) => Ok(hex::encode(alloc, judged.frame().ok_or("a record")?)?),
        Err(refusal) => Ok(format!(in alloc; "{refusal:?}")?),
    }
}

// The record of a step for each of those who ask, which a comma parts. Nothing is entered.
fn check_step(
    rt: &impl Abort,
    alloc: Global,
    run: &mut Run,
    row: &str,
    wanted: &str,
) -> Result<(), Fail> {
    let (callers, step) = cut(row);
    for caller in callers.split(',') {
        ask_as(alloc, run, caller)?;
        let record = record_of(alloc, run, step)?;
        same(rt, record.as_str(), wanted, row);
    }
    Ok(())
}

// Steps behind those of two scripts, with their records.
fn check(
    rt: &(impl Abort + Alloc<A = Global>),
    version: Version,
    scripts: [&str; 2],
    rows: &[(&str, &str)],
) -> Result<(), Fail> {
    let mut run = new_run(rt.alloc(), 65_536, version)?;
    for script in scripts {
        run_lines(rt, rt.alloc(), &mut run, script)?;
    }
    for (step, record) in rows {
        check_step(rt, rt.alloc(), &mut run, step, record)?;
    }
    Ok(())
}

// `main` at a changeset that sets `x` (1), on a root (0), and beside it one that sets `y` (2), with one upon it that
// deletes `z` (3).
const DRAFTS: &str = "\
content abc
content
line - 1 0
change 0 x:abc
change 0 y:
change 2 -z
move 1";

// `main` at a root (0), and a draft of the second version upon it (1).
const DATED: &str = "\
content abc
line - 1 0
second 0 q<p:abc
move 0";

// The payload's length, `L`, the name, the head before, the draft, how many changesets there are, each behind its length,
// and a closed gate.
const RECORD: &str = "\
000000f5\
4c046d61696e\
6f0fd4791e9901030b778dc51bebc28effb042f328726c7f1689026f5b9c68c8\
cd1ab1b3c47bf68a84ee3a3be6a6c1d75e17ce583352319bc673319935d4c1e0\
0002\
00000067\
4301016f0fd4791e9901030b778dc51bebc28effb042f328726c7f1689026f5b9c68c8000161000000000000000000000000000000000000000100017901000000000000000000e3b0c44298fc1c149afbf4c8996fb92427ae41e4649b934ca495991b7852b855\
0000003e\
43010166018dae6dcd26aa7f15f755f702edd69b683e14a7531d0ba9293f9127fda14f000161000000000000000000000000000000000000000100017a00\
00";

// The payload's length, `N`, the name, the head before, the draft, the moment, one changeset behind its length, which has
// the moment as its date, and a closed gate.
const RECORD_AT_1000: &str = "\
000000c0\
4e046d61696e\
ffb74880ae0d3038b6e6e402ea0840634c79efb3c927e280d44f36567ece7169\
edc16c45d60124e767b543883ac3eb9cd185889e0159f4ec7f9706b9d1a9f1c9\
00000000000003e8\
0001\
0000006c\
430201ffb74880ae0d3038b6e6e402ea0840634c79efb3c927e280d44f36567ece716900016100000000000003e800000000000000000000000100017101000000000000000003ba7816bf8f01cfea414140de5dae2223b00361a396177a9cb410ff61f20015ad0100000170\
00";

// The payload's length, `M`, the name, the head before and the one after, and a closed gate.
const MOVE: &str = "\
00000048\
4d046d61696e\
016f0fd4791e9901030b778dc51bebc28effb042f328726c7f1689026f5b9c68c8\
01ffb74880ae0d3038b6e6e402ea0840634c79efb3c927e280d44f36567ece7169\
00";

// The payload's length, `A`, the length of the caller's name, the name, `R`, the text, and a closed gate. A first policy tells
// its caller too.
const POLICY: &str = "\
00000029\
4103626f62\
52\
616c6c6f7720616e6e206c69620a64656e79202a206c69620a616c6c6f77202a202f0a\
00";

// One of the longest name, of 128 bytes.
const LONGEST_LANDS: &str =
    "nnnnnnnnnnnnnnnnnnnnnnnnnnnnnnnnnnnnnnnnnnnnnnnnnnnnnnnnnnnnnnnnnnnnnnnnnnnnnnnnnnnnnnnnnnnnnnnnnnnnnnnnnnnnnnnnnnnnnnnnnnnnnnnn land 3";

// Where no policy is held a move and a landing tell no caller.
#[test]
fn changes_are_recorded(rt: HostRuntime) -> Result<(), Fail> {
    for version in [Version::First, Version::Second] {
        check(
            &rt,
            version,
            [DRAFTS, ""],
            &[
                ("ann move 0", MOVE),
                ("a,anonymous land 3", RECORD),
                (LONGEST_LANDS, RECORD),
            ],
        )?;
        check(
            &rt,
            version,
            [DATED, ""],
            &[("a,anonymous land 1 1000", RECORD_AT_1000)],
        )?;
    }
    check(
        &rt,
        Version::Second,
        [DRAFTS, ""],
        &[("bob policy allow ann lib;deny * lib;allow * /;", POLICY)],
    )
}

// Where one is held `A`, the length of the caller's name and the name stand behind the payload's length.
const TOLD_MOVE: &str = "\
0000004d\
4103616e6e\
4d046d61696e\
016f0fd4791e9901030b778dc51bebc28effb042f328726c7f1689026f5b9c68c8\
01ffb74880ae0d3038b6e6e402ea0840634c79efb3c927e280d44f36567ece7169\
00";

const TOLD_DELETION: &str = "\
0000002d\
4103616e6e\
4d046d61696e\
016f0fd4791e9901030b778dc51bebc28effb042f328726c7f1689026f5b9c68c8\
00\
00";

const TOLD_LANDING: &str = "\
000000fa\
4103616e6e\
4c046d61696e\
6f0fd4791e9901030b778dc51bebc28effb042f328726c7f1689026f5b9c68c8\
cd1ab1b3c47bf68a84ee3a3be6a6c1d75e17ce583352319bc673319935d4c1e0\
0002\
00000067\
4301016f0fd4791e9901030b778dc51bebc28effb042f328726c7f1689026f5b9c68c8000161000000000000000000000000000000000000000100017901000000000000000000e3b0c44298fc1c149afbf4c8996fb92427ae41e4649b934ca495991b7852b855\
0000003e\
43010166018dae6dcd26aa7f15f755f702edd69b683e14a7531d0ba9293f9127fda14f000161000000000000000000000000000000000000000100017a00\
00";

const TOLD_BY_LONGEST: &str = "\
00000177\
41806e6e6e6e6e6e6e6e6e6e6e6e6e6e6e6e6e6e6e6e6e6e6e6e6e6e6e6e6e6e6e6e6e6e6e6e6e6e6e6e6e6e6e6e6e6e6e6e6e6e6e6e6e6e6e6e6e6e6e6e6e6e6e6e6e6e6e6e6e6e6e6e6e6e6e6e6e6e6e6e6e6e6e6e6e6e6e6e6e6e6e6e6e6e6e6e6e6e6e6e6e6e6e6e6e6e6e6e6e6e6e6e6e6e6e6e6e6e6e6e6e6e6e6e6e6e6e6e\
4c046d61696e\
6f0fd4791e9901030b778dc51bebc28effb042f328726c7f1689026f5b9c68c8\
cd1ab1b3c47bf68a84ee3a3be6a6c1d75e17ce583352319bc673319935d4c1e0\
0002\
00000067\
4301016f0fd4791e9901030b778dc51bebc28effb042f328726c7f1689026f5b9c68c8000161000000000000000000000000000000000000000100017901000000000000000000e3b0c44298fc1c149afbf4c8996fb92427ae41e4649b934ca495991b7852b855\
0000003e\
43010166018dae6dcd26aa7f15f755f702edd69b683e14a7531d0ba9293f9127fda14f000161000000000000000000000000000000000000000100017a00\
00";

const TOLD_AT_1000: &str = "\
000000c5\
4103616e6e\
4e046d61696e\
ffb74880ae0d3038b6e6e402ea0840634c79efb3c927e280d44f36567ece7169\
edc16c45d60124e767b543883ac3eb9cd185889e0159f4ec7f9706b9d1a9f1c9\
00000000000003e8\
0001\
0000006c\
430201ffb74880ae0d3038b6e6e402ea0840634c79efb3c927e280d44f36567ece716900016100000000000003e800000000000000000000000100017101000000000000000003ba7816bf8f01cfea414140de5dae2223b00361a396177a9cb410ff61f20015ad0100000170\
00";

#[test]
fn callers_are_recorded_under_a_policy(rt: HostRuntime) -> Result<(), Fail> {
    check(
        &rt,
        Version::Second,
        [DRAFTS, "policy allow * /; = 7"],
        &[
            ("ann move 0", TOLD_MOVE),
            ("ann move -", TOLD_DELETION),
            ("ann land 3", TOLD_LANDING),
            (LONGEST_LANDS, TOLD_BY_LONGEST),
            ("bob policy allow ann lib;deny * lib;allow * /;", POLICY),
        ],
    )?;
    check(
        &rt,
        Version::Second,
        [DATED, "policy allow * /; = 4"],
        &[("ann land 1 1000", TOLD_AT_1000)],
    )
}
