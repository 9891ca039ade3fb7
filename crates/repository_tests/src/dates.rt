//! Landings at moments, by tables. The ids are those of an independent computation, and the sizes are worked out from the
//! formats.
use crate::steps::run_script;
use std::test::Fail;

// A draft of the second version on `main`, which sets `q` as a copy of `p`.
const DATED: &str = "\
content abc
content
line - 1 0
second 0 q<p:abc
move 0
?counts = 5 2 2 1 0 221
land 1 1000 = 1 new
?head = 9a25bac6ac765d106eda503abf211e3f5f8cf418ace51f0099801c1ca10a10d9
?counts = 6 2 3 1 1 418
land 1 1000 = Clash { left: q, right: q }
land 1 1001 = Clash { left: q, right: q }
?counts = 6 2 3 1 1 418";

#[test]
fn a_draft_of_the_second_version_gets_the_date_of_its_landing(rt: HostRuntime) -> Result<(), Fail> {
    run_script(&rt, 65_536, DATED)
}

const LAST: &str = "\
content abc
line - 1 0
second 0 q<p:abc
move 0
land 1 18446744073709551615 = 1 new
?head = 27f64bed61b955763b6e111eb82794b4707b31f3a59cf36abe366ea96924f8b7
?counts = 5 1 3 1 1 412";

// At the moment that it has as its date it lands as itself.
const KEPT: &str = "\
content abc
line - 1 0
second 0 q<p:abc
move 0
land 1 0 = 1 kept
?head = edc16c45d60124e767b543883ac3eb9cd185889e0159f4ec7f9706b9d1a9f1c9
?counts = 5 1 2 1 1 412
land 1 0 = AlreadyIn";

#[test]
fn the_first_and_the_last_moment(rt: HostRuntime) -> Result<(), Fail> {
    run_script(&rt, 65_536, KEPT)?;
    run_script(&rt, 65_536, LAST)
}

// Of a stack of three on another head the second is of the second version.
const MIXED: &str = "\
content abc
content
line - 1 0
change 0 x:abc
change 0 y:
second 2 w<y:abc z:
change 3 y:abc
move 1
?counts = 8 2 5 1 0 591
land 4 1000 = 3 new
?head = 6f026653a42cb6935baca372d3cdedf8634c9a3c0b809d20ee8cf5013ddaafcc
?counts = 9 2 8 1 1 1048
?sizes w x y z = 3 3 3 0";

// The first of them alone is of the first version, and its landing tells no moment.
const FIRST: &str = "\
content abc
content
line - 1 0
change 0 x:abc
change 0 y:
second 2 w<y:abc z:
change 3 y:abc
move 1
land 2 1000 = 1 new
?head = 66018dae6dcd26aa7f15f755f702edd69b683e14a7531d0ba9293f9127fda14f
?counts = 9 2 6 1 1 775";

#[test]
fn what_is_of_the_first_version_keeps_its_date(rt: HostRuntime) -> Result<(), Fail> {
    run_script(&rt, 65_536, MIXED)?;
    run_script(&rt, 65_536, FIRST)
}

// What a file was copied from is changed on `main`.
const SOURCE: &str = "\
content abc
line - 1 0
second 0 q<p:abc
change 0 p:abc
move 2
land 1 1000 = 1 new
?head = dbd04655f6c0ab5886d121fb1f0b7eea3e3a863201d25a85543af8eba88507d9";

#[test]
fn what_a_file_was_copied_from_is_not_touched(rt: HostRuntime) -> Result<(), Fail> {
    run_script(&rt, 65_536, SOURCE)
}

// A landing with a moment takes 197 bytes, and 196 are left, or 197.
const FULL: &str = "\
content abc
content
line - 1 0
second 0 q<p:abc
move 0
long 3673
land 1 1000 = Full { size: 3900, length: 192 }
?counts = 6 3 2 1 0 3900";

const FITTING: &str = "\
content abc
content
line - 1 0
second 0 q<p:abc
move 0
long 3672
land 1 1000 = 1 new
?counts = 7 3 3 1 1 4096";

#[test]
fn a_landing_with_a_moment_has_to_fit(rt: HostRuntime) -> Result<(), Fail> {
    run_script(&rt, 4_096, FULL)?;
    run_script(&rt, 4_096, FITTING)
}
