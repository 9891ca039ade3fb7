//! Files of repositories, byte by byte, and what is reported of a file.
use crate::program::{
    Came, INIT, disk_of, link_of, link_with_room, made, opener_of_none, run_line, run_on,
    run_opener, status_of,
};
use crate::session::{asking, bytes_of, cut, played};
use crate::stops::check_counted;
use blob_disk::MemDisk;
use command_line::Status;
use std::alloc::{AllocError, Global};
use std::process::Abort;
use std::sync::Wait;
use std::test::Fail;
use std::thread::Threads;

/// The file of a new repository of 65,536 bytes: the mark of the second version, the capacity and a closed gate.
const NEW: &str = "0x424f4e5341490002000000000001000000";

/// One of the first version with the content `abc`: an open gate, a length, the payload and a closed gate.
const WITH_CONTENT: &str = "0x424f4e5341490001000000000001000001000000044261626300";

/// Sessions on one file, one after another. The ids are SHA-256 (FIPS 180-4).
const FIRST: &str = r#"GET /log/0 |  | 200 OK | {"code":"log","entries":[],"total":0}
GET /log/00 |  | 200 OK | {"code":"log","entries":[],"total":0}
GET /log/%31 |  | 200 OK | {"code":"log","entries":[],"total":0}
GET /log/9999999999999999999 |  | 200 OK | {"code":"log","entries":[],"total":0}
PUT /content | abc | 200 OK | {"code":"content","id":"ba7816bf8f01cfea414140de5dae2223b00361a396177a9cb410ff61f20015ad","size":3}"#;

const SECOND: &str =
    r#"PUT /content | abc | 200 OK | {"code":"content","id":"ba7816bf8f01cfea414140de5dae2223b00361a396177a9cb410ff61f20015ad","size":3}
GET /log/0 |  | 200 OK | {"code":"log","entries":[{"id":"ba7816bf8f01cfea414140de5dae2223b00361a396177a9cb410ff61f20015ad","kind":"content","number":0,"size":3}],"total":1}
GET /content/ba7816bf8f01cfea414140de5dae2223b00361a396177a9cb410ff61f20015ad |  | 200 OK | 0x616263
GET /content/e3b0c44298fc1c149afbf4c8996fb92427ae41e4649b934ca495991b7852b855 |  | 404 Not Found | {"code":"no-content","id":"e3b0c44298fc1c149afbf4c8996fb92427ae41e4649b934ca495991b7852b855"}"#;

const THIRD: &str =
    r#"PUT /changeset | 0x4301000001610000000000000000000000000000000000000000 | 200 OK | {"code":"changeset","id":"ffb74880ae0d3038b6e6e402ea0840634c79efb3c927e280d44f36567ece7169"}"#;

/// An upload of 103 bytes, a bookmark of 40 and a landing of 179, each with five more.
const FOURTH: &str =
    r#"GET /changeset/ffb74880ae0d3038b6e6e402ea0840634c79efb3c927e280d44f36567ece7169 |  | 200 OK | 0x4301000001610000000000000000000000000000000000000000
PUT /changeset | 0x430101ffb74880ae0d3038b6e6e402ea0840634c79efb3c927e280d44f36567ece7169000161000000000000000000000000000000000000000100017001000000000000000003ba7816bf8f01cfea414140de5dae2223b00361a396177a9cb410ff61f20015ad | 200 OK | {"code":"changeset","id":"e8795b6f358309976a85a48b88590a7b77ffcdc1ce55d29a761853d4ff0669f0"}
PUT /bookmark/main/none/ffb74880ae0d3038b6e6e402ea0840634c79efb3c927e280d44f36567ece7169 |  | 200 OK | {"code":"bookmark","head":"ffb74880ae0d3038b6e6e402ea0840634c79efb3c927e280d44f36567ece7169","name":"main"}
POST /land/main/e8795b6f358309976a85a48b88590a7b77ffcdc1ce55d29a761853d4ff0669f0 |  | 200 OK | {"code":"landed","head":"e8795b6f358309976a85a48b88590a7b77ffcdc1ce55d29a761853d4ff0669f0","ids":["e8795b6f358309976a85a48b88590a7b77ffcdc1ce55d29a761853d4ff0669f0"],"old":"ffb74880ae0d3038b6e6e402ea0840634c79efb3c927e280d44f36567ece7169"}
GET /bookmark/main |  | 200 OK | {"code":"bookmark","head":"e8795b6f358309976a85a48b88590a7b77ffcdc1ce55d29a761853d4ff0669f0","name":"main"}"#;

/// Policies, and what they decide of landings and moves: a policy of 42 bytes, two uploads of 107 and 106, landings of 188
/// and 187, a policy of 18 and a move of 77, each with five more.
const FIFTH: &str = r#"GET /policy |  | 404 Not Found | {"code":"no-policy"}
PUT /policy | allow ann | 422 Unprocessable Content | {"code":"bad-policy","line":0}
PUT /policy |  | 422 Unprocessable Content | {"code":"bad-policy","line":0}
PUT /policy | 0x616c6c6f7720616e6e206c69620a64656e79202a206c69620a616c6c6f77202a202f0a64656e79202a206c6962 | 422 Unprocessable Content | {"code":"bad-policy","line":3}
PUT /policy @root | 0x616c6c6f7720616e6e206c69620a64656e79202a206c69620a616c6c6f77202a202f0a | 200 OK | {"code":"policy","number":5}
GET /policy |  | 200 OK | 0x616c6c6f7720616e6e206c69620a64656e79202a206c69620a616c6c6f77202a202f0a
GET /policy/5 |  | 200 OK | 0x616c6c6f7720616e6e206c69620a64656e79202a206c69620a616c6c6f77202a202f0a
GET /policy/4 |  | 404 Not Found | {"code":"no-policy"}
GET /policy/6 |  | 404 Not Found | {"code":"no-policy"}
POST /policy |  | 405 Method Not Allowed | {"code":"method"} | Allow: GET, PUT
PUT /changeset | 0x430101e8795b6f358309976a85a48b88590a7b77ffcdc1ce55d29a761853d4ff0669f0000161000000000000000000000000000000000000000100056c69622f7801000000000000000003ba7816bf8f01cfea414140de5dae2223b00361a396177a9cb410ff61f20015ad | 200 OK | {"code":"changeset","id":"b2e281c47486cc950a4bc4037210cedc6161c0789ae355c08ccf7392cde2f1c7"}
PUT /changeset @bob | 0x430101e8795b6f358309976a85a48b88590a7b77ffcdc1ce55d29a761853d4ff0669f0000161000000000000000000000000000000000000000100046c69627801000000000000000003ba7816bf8f01cfea414140de5dae2223b00361a396177a9cb410ff61f20015ad | 200 OK | {"code":"changeset","id":"d156599c94343a330d6026d62a03b9d0e282104c45824fd5e8291726c279b0d9"}
POST /land/main/b2e281c47486cc950a4bc4037210cedc6161c0789ae355c08ccf7392cde2f1c7 @bob |  | 403 Forbidden | {"code":"denied","path":"lib/x","rule":1}
POST /land/main/b2e281c47486cc950a4bc4037210cedc6161c0789ae355c08ccf7392cde2f1c7 |  | 403 Forbidden | {"code":"denied","path":"lib/x","rule":1}
POST /land/main/b2e281c47486cc950a4bc4037210cedc6161c0789ae355c08ccf7392cde2f1c7 @ann |  | 200 OK | {"code":"landed","head":"b2e281c47486cc950a4bc4037210cedc6161c0789ae355c08ccf7392cde2f1c7","ids":["b2e281c47486cc950a4bc4037210cedc6161c0789ae355c08ccf7392cde2f1c7"],"old":"e8795b6f358309976a85a48b88590a7b77ffcdc1ce55d29a761853d4ff0669f0"}
POST /land/main/d156599c94343a330d6026d62a03b9d0e282104c45824fd5e8291726c279b0d9 @bob |  | 200 OK | {"code":"landed","head":"cfb4ab8452d155596bdc9a51610fc7fee812dd9eee25ee8350a9710741f186c1","ids":["cfb4ab8452d155596bdc9a51610fc7fee812dd9eee25ee8350a9710741f186c1"],"old":"b2e281c47486cc950a4bc4037210cedc6161c0789ae355c08ccf7392cde2f1c7"}
PUT /policy @ann | 0x616c6c6f7720616e6e202f0a | 200 OK | {"code":"policy","number":10}
PUT /bookmark/main/cfb4ab8452d155596bdc9a51610fc7fee812dd9eee25ee8350a9710741f186c1/none @bob |  | 403 Forbidden | {"code":"denied","path":".bookmarks/main","rule":null}
PUT /bookmark/main/cfb4ab8452d155596bdc9a51610fc7fee812dd9eee25ee8350a9710741f186c1/cfb4ab8452d155596bdc9a51610fc7fee812dd9eee25ee8350a9710741f186c1 @bob |  | 403 Forbidden | {"code":"denied","path":".bookmarks/main","rule":null}
PUT /bookmark/main/none/cfb4ab8452d155596bdc9a51610fc7fee812dd9eee25ee8350a9710741f186c1 @bob |  | 409 Conflict | {"code":"moved","found":"cfb4ab8452d155596bdc9a51610fc7fee812dd9eee25ee8350a9710741f186c1"}
PUT /policy @bob | 0x616c6c6f7720626f62202f0a | 403 Forbidden | {"code":"denied","path":".policy","rule":null}
PUT /bookmark/main/cfb4ab8452d155596bdc9a51610fc7fee812dd9eee25ee8350a9710741f186c1/e8795b6f358309976a85a48b88590a7b77ffcdc1ce55d29a761853d4ff0669f0 @ann |  | 200 OK | {"code":"bookmark","head":"e8795b6f358309976a85a48b88590a7b77ffcdc1ce55d29a761853d4ff0669f0","name":"main"}
GET /policy |  | 200 OK | 0x616c6c6f7720616e6e202f0a
GET /log/5 |  | 200 OK | {"code":"log","entries":[{"caller":"root","kind":"policy","number":5,"rules":3},{"id":"b2e281c47486cc950a4bc4037210cedc6161c0789ae355c08ccf7392cde2f1c7","kind":"changeset","number":6},{"id":"d156599c94343a330d6026d62a03b9d0e282104c45824fd5e8291726c279b0d9","kind":"changeset","number":7},{"caller":"ann","draft":"b2e281c47486cc950a4bc4037210cedc6161c0789ae355c08ccf7392cde2f1c7","ids":["b2e281c47486cc950a4bc4037210cedc6161c0789ae355c08ccf7392cde2f1c7"],"kind":"landing","name":"main","number":8,"old":"e8795b6f358309976a85a48b88590a7b77ffcdc1ce55d29a761853d4ff0669f0"},{"caller":"bob","draft":"d156599c94343a330d6026d62a03b9d0e282104c45824fd5e8291726c279b0d9","ids":["cfb4ab8452d155596bdc9a51610fc7fee812dd9eee25ee8350a9710741f186c1"],"kind":"landing","name":"main","number":9,"old":"b2e281c47486cc950a4bc4037210cedc6161c0789ae355c08ccf7392cde2f1c7"},{"caller":"ann","kind":"policy","number":10,"rules":1},{"caller":"ann","from":"cfb4ab8452d155596bdc9a51610fc7fee812dd9eee25ee8350a9710741f186c1","kind":"bookmark","name":"main","number":11,"to":"e8795b6f358309976a85a48b88590a7b77ffcdc1ce55d29a761853d4ff0669f0"}],"total":12}"#;

/// Files that were deleted, and where a path changed: uploads of 62 and 103 bytes, each with five more. And a
/// content that is joined, of 107 and five.
const SIXTH: &str =
    r#"PUT /changeset | 0x430101e8795b6f358309976a85a48b88590a7b77ffcdc1ce55d29a761853d4ff0669f0000161000000000000000000000000000000000000000100017000 | 200 OK | {"code":"changeset","id":"b2bed93a6b8be3c2b2330589fda2906eaed9c952f823aaf09d51ccb9f7c43104"}
PUT /changeset | 0x430101b2bed93a6b8be3c2b2330589fda2906eaed9c952f823aaf09d51ccb9f7c43104000161000000000000000000000000000000000000000100017001000000000000000003ba7816bf8f01cfea414140de5dae2223b00361a396177a9cb410ff61f20015ad | 200 OK | {"code":"changeset","id":"1c7791ec52a83c3c3d4a1c8f4fa36002f4a73548be401868f074eb6d70bb6739"}
GET /pathlog/1c7791ec52a83c3c3d4a1c8f4fa36002f4a73548be401868f074eb6d70bb6739/p |  | 200 OK | {"code":"path-log","ids":["1c7791ec52a83c3c3d4a1c8f4fa36002f4a73548be401868f074eb6d70bb6739","b2bed93a6b8be3c2b2330589fda2906eaed9c952f823aaf09d51ccb9f7c43104","e8795b6f358309976a85a48b88590a7b77ffcdc1ce55d29a761853d4ff0669f0"]}
GET /pathlog/b2bed93a6b8be3c2b2330589fda2906eaed9c952f823aaf09d51ccb9f7c43104/p |  | 200 OK | {"code":"path-log","ids":["b2bed93a6b8be3c2b2330589fda2906eaed9c952f823aaf09d51ccb9f7c43104","e8795b6f358309976a85a48b88590a7b77ffcdc1ce55d29a761853d4ff0669f0"]}
GET /pathlog/1c7791ec52a83c3c3d4a1c8f4fa36002f4a73548be401868f074eb6d70bb6739/q |  | 404 Not Found | {"code":"no-path"}
GET /pathlog/ba7816bf8f01cfea414140de5dae2223b00361a396177a9cb410ff61f20015ad/p |  | 404 Not Found | {"code":"no-changeset","id":"ba7816bf8f01cfea414140de5dae2223b00361a396177a9cb410ff61f20015ad"}
GET /deleted/b2bed93a6b8be3c2b2330589fda2906eaed9c952f823aaf09d51ccb9f7c43104 |  | 200 OK | 0x44010000000001017016c4dbc94cde782b59e5eb6156e82646af642b4aa5fc8a066cd665dda8b66c53
GET /deleted/b2bed93a6b8be3c2b2330589fda2906eaed9c952f823aaf09d51ccb9f7c43104/p |  | 200 OK | 0x440101b2bed93a6b8be3c2b2330589fda2906eaed9c952f823aaf09d51ccb9f7c4310400000000
GET /deleted/1c7791ec52a83c3c3d4a1c8f4fa36002f4a73548be401868f074eb6d70bb6739 |  | 200 OK | 0x44010000000000
GET /deleted/1c7791ec52a83c3c3d4a1c8f4fa36002f4a73548be401868f074eb6d70bb6739/p |  | 404 Not Found | {"code":"no-path"}
GET /deleted/ba7816bf8f01cfea414140de5dae2223b00361a396177a9cb410ff61f20015ad |  | 404 Not Found | {"code":"no-changeset","id":"ba7816bf8f01cfea414140de5dae2223b00361a396177a9cb410ff61f20015ad"}
PUT /whole | 0xba7816bf8f01cfea414140de5dae2223b00361a396177a9cb410ff61f20015 | 400 Bad Request | {"code":"bad-parts","length":31}
PUT /whole |  | 400 Bad Request | {"code":"bad-parts","length":0}
PUT /whole | 0xba7816bf8f01cfea414140de5dae2223b00361a396177a9cb410ff61f20015adba7816bf8f01cfea414140de5dae2223b00361a396177a9cb410ff61f20015ad | 200 OK | {"code":"whole","id":"bbb59da3af939f7af5f360f2ceb80a496e3bae1cd87dde426db0ae40677e1c2c","size":6}
GET /content/bbb59da3af939f7af5f360f2ceb80a496e3bae1cd87dde426db0ae40677e1c2c |  | 200 OK | 0x616263616263
GET /whole |  | 405 Method Not Allowed | {"code":"method"} | Allow: PUT"#;

/// In a file of the first version no policy is set and nothing is joined, and all else is as it was.
const OLD: &str =
    r#"PUT /policy | 0x616c6c6f7720616e6e206c69620a64656e79202a206c69620a616c6c6f77202a202f0a | 409 Conflict | {"code":"old-format"}
PUT /policy | allow ann | 409 Conflict | {"code":"old-format"}
PUT /whole | 0xba7816bf8f01cfea414140de5dae2223b00361a396177a9cb410ff61f20015ad | 409 Conflict | {"code":"old-format"}
GET /policy |  | 404 Not Found | {"code":"no-policy"}
GET /content/ba7816bf8f01cfea414140de5dae2223b00361a396177a9cb410ff61f20015ad |  | 200 OK | 0x616263
PUT /content | abc | 200 OK | {"code":"content","id":"ba7816bf8f01cfea414140de5dae2223b00361a396177a9cb410ff61f20015ad","size":3}"#;

// Serves a session of this script on the disk, and gives the disk back.
fn served<R: Abort + Threads + Wait + Sync>(
    rt: &R,
    alloc: Global,
    disk: MemDisk,
    lines: &str,
    size: usize,
) -> Result<MemDisk, Fail> {
    let came = played(rt, alloc, disk, lines, Status::Done)?;
    assert_eq!(rt; came.file().len(), size);
    came.left()
}

fn grown<R: Abort + Threads + Wait + Sync>(
    rt: &R,
    alloc: Global,
    disk: MemDisk,
) -> Result<MemDisk, Fail> {
    let disk = served(rt, alloc, disk, FIRST, 26)?;
    let disk = served(rt, alloc, disk, SECOND, 26)?;
    let disk = served(rt, alloc, disk, THIRD, 57)?;
    let disk = served(rt, alloc, disk, FOURTH, 394)?;
    let disk = served(rt, alloc, disk, FIFTH, 1154)?;
    served(rt, alloc, disk, SIXTH, 1441)
}

#[test]
fn a_file_grows_by_its_records(rt: HostRuntime) -> Result<(), Fail> {
    let disk = made(&rt, rt.alloc(), INIT)?;
    let disk = grown(&rt, rt.alloc(), disk)?;
    let counted = "entries 15 contents 2 changesets 7 bookmarks 1 size 1441\n";
    check_counted(&rt, rt.alloc(), disk.bytes(), counted)
}

#[test]
fn a_new_file_has_the_second_mark_and_one_of_the_first_keeps_its_own(
    rt: HostRuntime,
) -> Result<(), Fail> {
    let disk = made(&rt, rt.alloc(), INIT)?;
    let wanted = bytes_of(rt.alloc(), NEW)?;
    assert_eq!(rt; disk.bytes(), wanted.as_slice());
    let file = bytes_of(rt.alloc(), WITH_CONTENT)?;
    let disk = disk_of(rt.alloc(), file.as_slice(), None)?;
    let left = served(&rt, rt.alloc(), disk, OLD, 26)?;
    assert_eq!(rt; left.bytes(), file.as_slice());
    Ok(())
}

// A command, the bytes of a file, its status, and its line. In turn: a new repository, one of the first version, that with
// a content, one with a payload of no kind, one whose gate is neither open nor 0, an empty file, one without a gate, one of
// too small a capacity, and one of a third version.
const REPORTED: &str = "\
fsck | 0x424f4e5341490002000000000001000000 | done | entries 0 contents 0 changesets 0 bookmarks 0 size 17
fsck | 0x424f4e5341490001000000000001000000 | done | entries 0 contents 0 changesets 0 bookmarks 0 size 17
fsck | 0x424f4e5341490001000000000001000001000000044261626300 | done | entries 1 contents 1 changesets 0 bookmarks 0 size 26
fsck | 0x424f4e5341490001000000000001000001000000045861626300 | bad file | damaged at 16
session | 0x424f4e5341490001000000000001000001000000045861626300 | bad file |
fsck | 0x424f4e5341490001000000000001000002000000044261626300 | done | entries 0 contents 0 changesets 0 bookmarks 0 size 17
session | 0x424f4e5341490001000000000001000002000000044261626300 | done |
fsck | 0x | bad file | not a repository
fsck | 0x424f4e53414900010000000000010000 | bad file | not a repository
session | 0x424f4e53414900010000000000010000 | bad file |
fsck | 0x424f4e53414900010000000000000fff00 | bad file | damaged at 8
fsck | 0x424f4e5341490003000000000001000000 | bad file | not a repository
init | 0x | done | ready 4096
init | 0x424f4e53414900010000000000010000 | not empty | file is not empty
init | 0x424f4e5341490001000000000001000001000000044261626300 | not empty | file is not empty";

fn line_of(command: &str) -> &'static str {
    match command {
        "fsck" => "hg_cli fsck repository",
        "init" => "hg_cli init repository 4096",
        _ => "hg_cli session repository",
    }
}

// A status and the line after it.
fn ending(rest: &str) -> (&str, &str) {
    let (status, line) = rest.split_once(" |").unwrap_or((rest, ""));
    (status, line.strip_prefix(" ").unwrap_or(line))
}

// The command ends and writes so.
fn check_came(rt: &impl Abort, came: &Came, status: Status, line: &str, row: &str) {
    assert_eq!(rt; came.status, status, "{row}");
    assert!(rt; is_line(came.written.as_slice(), line), "{row}");
}

// So does the command of a row. The file stays, but where a repository is made in it.
fn check_reported<R: Abort + Threads + Wait + Sync>(
    rt: &R,
    alloc: Global,
    row: &str,
) -> Result<(), Fail> {
    let (command, rest) = cut(row);
    let (file, rest) = cut(rest);
    let (status, line) = ending(rest);
    let file = bytes_of(alloc, file)?;
    let came = run_on(rt, alloc, line_of(command), file.as_slice())?;
    check_came(rt, &came, status_of(status), line, row);
    let made = command == "init" && status == "done";
    assert!(rt; made || came.file() == file.as_slice(), "{row}");
    Ok(())
}

// Whether this line was written, or nothing where it is empty.
fn is_line(written: &[u8], line: &str) -> bool {
    match written.strip_suffix(b"\n") {
        Some(front) => !line.is_empty() && front == line.as_bytes(),
        None => line.is_empty() && written.is_empty(),
    }
}

#[test]
fn a_file_is_reported_as_it_stands(rt: HostRuntime) -> Result<(), Fail> {
    for row in REPORTED.lines() {
        check_reported(&rt, rt.alloc(), row)?;
    }
    Ok(())
}

// Runs the command where there is no file.
fn came_without<R: Threads + Wait + Sync>(
    rt: &R,
    alloc: Global,
    command: &str,
) -> Result<Came, Fail> {
    let link = link_of(alloc, b"GET / HTTP/1.1\r\n\r\n")?;
    let opener = opener_of_none(alloc, disk_of(alloc, &[], None)?)?;
    run_opener(rt, alloc, line_of(command), link, opener)
}

fn check_without<R: Abort + Threads + Wait + Sync>(
    rt: &R,
    alloc: Global,
    command: &str,
    status: Status,
    text: &str,
) -> Result<(), Fail> {
    let came = came_without(rt, alloc, command)?;
    came.check(rt, status, text.as_bytes(), command);
    assert_eq!(rt; came.disk.is_some(), status == Status::Done, "{command}");
    Ok(())
}

#[test]
fn a_file_that_is_not_there_is_made_by_init_alone(rt: HostRuntime) -> Result<(), Fail> {
    let alloc = rt.alloc();
    check_without(&rt, alloc, "init", Status::Done, "ready 4096\n")?;
    check_without(&rt, alloc, "fsck", Status::DiskFault, "disk fault\n")?;
    check_without(&rt, alloc, "session", Status::DiskFault, "")
}

// Counts a file where ten bytes can be written.
fn cut_off<R: Threads + Wait + Sync>(rt: &R, alloc: Global, file: &str) -> Result<Came, Fail> {
    let file = bytes_of(alloc, file)?;
    let disk = disk_of(alloc, file.as_slice(), None)?;
    let link = link_with_room(alloc, b"", 10)?;
    run_line(rt, alloc, line_of("fsck"), link, Some(disk))
}

#[test]
fn a_line_that_is_cut_off_is_a_stream_fault(rt: HostRuntime) -> Result<(), Fail> {
    let came = cut_off(&rt, rt.alloc(), WITH_CONTENT)?;
    came.check(&rt, Status::StreamFault, b"entries 1", "a count");
    let came = cut_off(&rt, rt.alloc(), "0x")?;
    came.check(&rt, Status::BadFile, b"", "no repository");
    Ok(())
}

// A request that stores a content of so many bytes `a`.
fn upload(alloc: Global, length: usize) -> Result<Vec<u8>, AllocError> {
    let content = vec![in alloc; b'a'; length]?;
    let head = asking(alloc, "PUT /content", length)?;
    let mut input = Vec::from_slice(alloc, head.as_bytes())?;
    input.extend_from_slice(content.as_slice())?;
    Ok(input)
}

// Stores it in a repository of 4,096 bytes.
fn stored<R: Threads + Wait + Sync>(rt: &R, alloc: Global, length: usize) -> Result<Came, Fail> {
    let input = upload(alloc, length)?;
    let link = link_of(alloc, input.as_slice())?;
    let disk = made(rt, alloc, line_of("init"))?;
    run_line(rt, alloc, line_of("session"), link, Some(disk))
}

fn check_stored<R: Abort + Threads + Wait + Sync>(
    rt: &R,
    alloc: Global,
    length: usize,
    size: usize,
    begins: &str,
    ends: &str,
) -> Result<(), Fail> {
    let came = stored(rt, alloc, length)?;
    assert_eq!(rt; came.status, Status::Done);
    assert_eq!(rt; came.file().len(), size);
    check_text(rt, came.written.as_slice(), begins, ends)
}

fn check_text(rt: &impl Abort, written: &[u8], begins: &str, ends: &str) -> Result<(), Fail> {
    let text = str::from_utf8(written)?;
    assert!(rt; text.starts_with(begins) && text.ends_with(ends), "{text}");
    Ok(())
}

#[test]
fn a_content_fits_to_the_last_byte(rt: HostRuntime) -> Result<(), Fail> {
    let alloc = rt.alloc();
    let ok = "HTTP/1.1 200 OK\r\n";
    check_stored(&rt, alloc, 4_073, 4_096, ok, ",\"size\":4073}")?;
    let status = "HTTP/1.1 507 Insufficient Storage\r\n";
    let full = "{\"code\":\"full\",\"length\":4075,\"size\":17}";
    check_stored(&rt, alloc, 4_074, 17, status, full)
}
