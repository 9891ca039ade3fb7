//! Landings on `main`, by tables. The ids are those of an independent computation.
use crate::steps::run_script;
use std::test::Fail;

const MOST: u64 = 34_359_738_368;

// `main` at a changeset that sets `x`, a draft beside it that sets `y`, and one that sets nothing.
const MOVED: &str = "\
content abc
content
line - 1 0
change 0 x:abc
change 0 y:
line 0 1 0
move 1
?head = 6f0fd4791e9901030b778dc51bebc28effb042f328726c7f1689026f5b9c68c8
land 2 = 1 new
?head = 66018dae6dcd26aa7f15f755f702edd69b683e14a7531d0ba9293f9127fda14f
?sizes x y z = 3 0 -
land 3 = 1 new
?head = 7f8e7902e1e400b5741fd08d4bf32891e1206b040d602b3587b1f6e329f30495
?sizes x y z = 3 0 -
land 3 = 1 new
?head = 49e27b54427eee0b5977ca613e48005162dfa1b97812746bfa5034fa4843d565
?sizes x y z = 3 0 -
land 2 = Clash { left: y, right: y }
?sizes x y z = 3 0 -";

#[test]
fn drafts_are_rewritten_onto_a_moved_head(rt: HostRuntime) -> Result<(), Fail> {
    run_script(&rt, 65_536, MOVED)
}

const BESIDE: &str = "\
content abc
content
line - 1 0
change 0 a:abc
change 1 a/c:abc
change 1 a/b:abc
move 2
?sizes a a/b a/c = - - 3
land 3 = 1 new
?head = 06621719c5fabee9fd36118cc37ab83800c2bc50e55c5ca0444fa4fa22143fd5
?sizes a a/b a/c = - 3 3";

#[test]
fn files_beside_one_another_do_not_clash(rt: HostRuntime) -> Result<(), Fail> {
    run_script(&rt, 65_536, BESIDE)
}

// A line of 10,001 and a line of 101 on one root.
const LINES: &str = "\
content abc
content
line - 1 0
line 0 10001 0
line 0 101 1
move 10001
land 10102 = TooFarBehind { distance: 10001 }
move 10000
land 10102 = StackTooLong { count: 101 }
land 10101 = 100 new
?head = 6b5fad09bd89c5e7e55c71a98f9301a850c9d2da54bc71cb518a0e851b98d249";

#[test]
fn stacks_and_ranges_are_bounded(rt: HostRuntime) -> Result<(), Fail> {
    run_script(&rt, MOST, LINES)
}

const PAYLOADS: &str = "\
content abc
content
line - 1 0
move 0
line 0 17 1000000
land 17 = TooLarge { length: 17001126 }
land 16 = 16 kept";

#[test]
fn a_payload_is_bounded(rt: HostRuntime) -> Result<(), Fail> {
    run_script(&rt, MOST, PAYLOADS)
}

// A landing takes 184 bytes, and 183 are left.
const FULL: &str = "\
content abc
content
line - 1 0
move 0
change 0 p:abc
long 3691
land 1 = Full { size: 3913, length: 179 }";

#[test]
fn a_landing_has_to_fit(rt: HostRuntime) -> Result<(), Fail> {
    run_script(&rt, 4_096, FULL)
}
