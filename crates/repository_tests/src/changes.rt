//! Changes of a repository, by tables. The ids are those of an independent computation, and the sizes are worked out
//! from the formats.
use crate::steps::run_script;
use object_id::Id;
use repo_machine::plain::{StoredContent, content_length};
use std::test::Fail;

const MOST: u64 = 34_359_738_368;

const FITTING: &str = "\
long 3
?counts = 1 1 0 0 0 26
long 3
?counts = 1 1 0 0 0 26
long 4064
?counts = 2 2 0 0 0 4096
long 0 = Full { size: 4096, length: 1 }
?counts = 2 2 0 0 0 4096
long 4064
?counts = 2 2 0 0 0 4096
long 1048577 = TooLong { length: 1048577 }
?counts = 2 2 0 0 0 4096";

#[test]
fn contents_are_stored_once_while_they_fit(rt: HostRuntime) -> Result<(), Fail> {
    run_script(&rt, 4_096, FITTING)
}

const LARGE: &str = "\
long 4074 = Full { size: 17, length: 4075 }
long 1048577 = TooLong { length: 1048577 }
long 4073
?counts = 1 1 0 0 0 4096";

#[test]
fn a_content_that_is_a_byte_too_long_for_the_journal(rt: HostRuntime) -> Result<(), Fail> {
    run_script(&rt, 4_096, LARGE)
}

const LONGEST: &str = "\
long 1048577 = TooLong { length: 1048577 }
long 1048576
?counts = 1 1 0 0 0 1048599";

#[test]
fn the_longest_content(rt: HostRuntime) -> Result<(), Fail> {
    run_script(&rt, MOST, LONGEST)
}

#[test]
fn stored_contents_by_going_through_them(rt: HostRuntime) -> Result<(), Fail> {
    let abc = Id::of(b"abc".as_slice());
    let mut contents = Vec::new(rt.alloc());
    contents.push(StoredContent {
        who: 7,
        id: abc,
        length: 3,
    })?;
    let found = content_length(contents.as_slice(), &abc);
    assert_eq!(rt; found, Some(3));
    Ok(())
}

// Behind 16 bytes of the header and the records before it stand a gate, a length of 4 bytes and a mark.
const PLACES: &str = "\
content abc
content
line - 1 0
?place abc = 22 3
?place = 31 0
?place x
content x
?place x = 68 1";

#[test]
fn contents_stand_at_their_places(rt: HostRuntime) -> Result<(), Fail> {
    run_script(&rt, 65_536, PLACES)
}

// The landing puts a changeset onto its own parent, so none is new. Its record has 184 bytes.
const COUNTS: &str = "\
?counts = 0 0 0 0 0 17
content abc
content
line - 1 0
?counts = 3 2 1 0 0 63
move 0
?counts = 4 2 1 1 0 108
change 0 p:abc
?counts = 5 2 2 1 0 216
land 1 = 1 kept
?counts = 6 2 2 1 1 400
move -
fault passing
?counts = 7 2 2 0 1 445";

#[test]
fn counts_are_those_of_the_history(rt: HostRuntime) -> Result<(), Fail> {
    run_script(&rt, 65_536, COUNTS)
}

const CLEARED: &str = "\
content abc
content
line - 1 0
move 0
fault passing
keep-log
clear-seats
?counts = 4 2 1 1 0 108
?entries = false 5 4
?kept = true
change 0 p:abc
land 1 = 1 kept
?head = e8795b6f358309976a85a48b88590a7b77ffcdc1ce55d29a761853d4ff0669f0";

#[test]
fn without_seats_all_else_stays(rt: HostRuntime) -> Result<(), Fail> {
    run_script(&rt, 65_536, CLEARED)
}

// After the breaking fault a content that is there is refused too, and reads go on.
const FAULTS: &str = "\
content abc
content
line - 1 0
move 0
?entries = false 4 4
?counts = 4 2 1 1 0 108
fault passing
?entries = false 5 4
content x
?entries = false 6 5
?counts = 5 3 1 1 0 115
fault breaking
?entries = true 7 5
content x = Down
content y = Down
?entries = true 7 5
?counts = 5 3 1 1 0 115
?head = ffb74880ae0d3038b6e6e402ea0840634c79efb3c927e280d44f36567ece7169";

#[test]
fn a_breaking_fault_ends_all_changes(rt: HostRuntime) -> Result<(), Fail> {
    run_script(&rt, 65_536, FAULTS)
}

const LOGGED: &str = "\
content abc
?log 18446744073709551615 = 0 1";

#[test]
fn a_page_of_the_log_from_the_last_number(rt: HostRuntime) -> Result<(), Fail> {
    run_script(&rt, 65_536, LOGGED)
}
