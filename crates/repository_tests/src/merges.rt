//! Merges by tables. The ids are those of an independent computation.
use crate::steps::run_script;
use std::test::Fail;

// The second and the third changeset set `x`, to two contents, and the first of them and the fourth set two files.
const MERGED: &str = "\
content abc
content
line - 1 0
change 0 x:abc
change 0 y:abc
change 0 x:
merge 1 2
merge 1 3 = Unresolved { path: x }
merge 3 1 = Unresolved { path: x }
merge 1 3 x:abc
merge 1 2
?counts = 8 2 6 0 0 622
change 1 z:
change 4 z:
move 0
land 8 = MergeInStack { id: Id([49, 243, 175, 132, 189, 6, 169, 227, 27, 125, 59, 49, 49, 79, 216, 149, 194, 82, 77, 226, 196, 188, 124, 220, 252, 167, 194, 251, 125, 35, 227, 90]) }
move 4
land 7 = MergeInRange { id: Id([49, 243, 175, 132, 189, 6, 169, 227, 27, 125, 59, 49, 49, 79, 216, 149, 194, 82, 77, 226, 196, 188, 124, 220, 252, 167, 194, 251, 125, 35, 227, 90]) }
?head = 31f3af84bd06a9e31b7d3b31314fd895c2524de2c4bc7cdcfca7c2fb7d23e35a
land 8 = 1 kept
?head = c4dd098288c3f9c226f6af6b14891b7a56d7157264effa2203bd9d9244e0532d";

#[test]
fn a_merge_is_stored_and_nothing_lands_over_it(rt: HostRuntime) -> Result<(), Fail> {
    run_script(&rt, 65_536, MERGED)
}

// A file stands against the files under it, whichever parent has it, until one of both sides is decided.
const FILE_AND_DIRECTORY: &str = "\
content abc
line - 1 0
change 0 d:abc
change 0 d/e:abc
merge 1 2 = Unresolved { path: d }
merge 2 1 = Unresolved { path: d }
merge 1 2 d/f:abc
merge 1 2 d:abc
merge 2 1 -d
merge 1 2 -d/e
?counts = 8 1 7 0 0 757";

#[test]
fn a_file_against_a_directory(rt: HostRuntime) -> Result<(), Fail> {
    run_script(&rt, 65_536, FILE_AND_DIRECTORY)
}

// Two merges of the same parents, one the other way round, and what stands on them: the one that sets nothing agrees with
// the other, and what sets a file after it doesn't.
const CRISS_CROSS: &str = "\
content abc
content
line - 1 0
change 0 a:abc
change 0 b:abc
merge 1 2
merge 2 1
merge 3 4
change 3 a:
change 4 b:
merge 6 7 = Unresolved { path: a }
merge 6 7 a: = Unresolved { path: b }
merge 6 7 a: b:
merge 8 5 = Unresolved { path: a }
merge 8 6 = Unresolved { path: b }
merge 8 6 b:";

#[test]
fn merges_of_merges(rt: HostRuntime) -> Result<(), Fail> {
    run_script(&rt, 65_536, CRISS_CROSS)
}
