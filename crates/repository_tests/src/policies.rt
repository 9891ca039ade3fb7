//! Policies, by tables: who may land, move `main` and set a policy. The ids are those of an independent computation, and the
//! sizes are worked out from the formats.
use crate::steps::{run_script, run_second};
use std::test::Fail;

const MOST: u64 = 34_359_738_368;

// A directory that only `ann` may change, and another one whose name goes on from its name. Of two paths that are denied the
// least is named.
const PATHS: &str = "\
content abc
line - 1 0
move 0
change 0 lib/x:abc
change 0 libx:abc
change 2 a:abc lib:abc
as ann
policy allow ann lib;deny * lib;allow * /; = 6
as bob
land 1 = Denied { place: Path(lib/x), rule: Some(1) }
land 3 = Denied { place: Path(lib), rule: Some(1) }
as ann
land 1 = 1 kept
as bob
land 2 = 1 new
?head = 43e29580b0762cf65518cd933a0940f844003c050577656c90241289565b3a68
?policy = allow ann lib;deny * lib;allow * /;
?callers = 9 ann/3 ann bob
?counts = 9 1 5 1 2 911";

// What `ann` alone may do, also where it would make no entry. A changeset that touches nothing is allowed.
const ALONE: &str = "\
content abc
line - 1 0
move 0
change 0 p:abc
line 0 1 0
as ann
policy allow ann /; = 5
as bob
move 1 = Denied { place: Bookmark(main), rule: None }
move - = Denied { place: Bookmark(main), rule: None }
move 0 = Denied { place: Bookmark(main), rule: None }
policy allow * /; = Denied { place: Policy, rule: None }
land 1 = Denied { place: Path(p), rule: None }
land 2 = 1 kept
as ann
move 1
policy deny ann .policy;deny * .bookmarks/main/x;allow ann /;deny * .bookmarks;allow * .bookmarks/main; = 8
policy allow ann /; = Denied { place: Policy, rule: Some(0) }
move 0
as bob
move 1 = Denied { place: Bookmark(main), rule: Some(3) }
?callers = 10 ann/1 bob ann ann/5 ann
?counts = 10 1 3 1 1 711";

// The name of a bookmark is an element of its place.
const NAMES: &str = "\
line - 2 0
as ann
policy deny bob .bookmarks;allow bob /;allow ann .policy; = 2
as bob
move 0 = Denied { place: Bookmark(main), rule: Some(0) }
policy allow bob .bookmarks/main;allow bob .policy; = 3
move 0
move 1
policy allow bob .bookmarks/mai;allow bob .bookmarks/mainx;allow bob main; = 6
move 0 = Denied { place: Bookmark(main), rule: None }
policy allow bob /; = Denied { place: Policy, rule: None }
?callers = 7 ann/3 bob/2 bob bob bob/3";

// What a file was copied from is not decided.
const COPIES: &str = "\
content abc
line - 1 0
move 0
second 0 q<p:abc
second 0 p/x:abc q<x:abc
policy deny bob p;allow * /; = 5
as bob
land 2 1000 = Denied { place: Path(p/x), rule: Some(0) }
land 1 1000 = 1 new
?head = 9a25bac6ac765d106eda503abf211e3f5f8cf418ace51f0099801c1ca10a10d9
?callers = 7 anonymous/2 bob
?counts = 7 1 4 1 1 616";

#[test]
fn policies_decide_who_may_change_what(rt: HostRuntime) -> Result<(), Fail> {
    run_second(&rt, 65_536, PATHS)?;
    run_second(&rt, 65_536, ALONE)?;
    run_second(&rt, 65_536, NAMES)?;
    run_second(&rt, 65_536, COPIES)
}

// The text that is held, and the one of a number. A fault has none.
const TEXTS: &str = "\
?policy
?policy 0
content abc
policy allow * /; = 1
?policy = allow * /;
?policy 0
?policy 1 = allow * /;
?policy 2
content
fault passing
policy deny bob lib;allow * /; = 3
?policy = deny bob lib;allow * /;
?policy 1 = allow * /;
?policy 2
?policy 3 = deny bob lib;allow * /;
?policy 4
?policy 18446744073709551615
?entries = false 5 4";

// A line is `allow` or `deny`, a name or `*`, and a path or `/`, with a blank between them, and it has an end.
const LINES: &str = "\
policy = BadPolicy { line: 0 }
policy ; = BadPolicy { line: 0 }
policy allow ann = BadPolicy { line: 0 }
policy allow ann; = BadPolicy { line: 0 }
policy allow ann / = BadPolicy { line: 0 }
policy allow  ann /; = BadPolicy { line: 0 }
policy Allow ann /; = BadPolicy { line: 0 }
policy allow ann /;deny * lib = BadPolicy { line: 1 }
policy allow ann /;; = BadPolicy { line: 1 }
policy allow ann /;deny * lib/; = BadPolicy { line: 1 }
policy allow * a;allow ** b; = BadPolicy { line: 1 }
policy allow * a b; = 0
?policy = allow * a b;
?callers = 1 anonymous/1";

// Refusals that come before one by a policy, and those that come after it.
const REFUSED: &str = "\
content abc
content
line - 1 0
change 0 p:abc
change 0 p:
as ann
policy allow ann /; = 5
as bob
move 0 1 = Moved { found: None }
move - 0 = Denied { place: Bookmark(main), rule: None }
move - - = Denied { place: Bookmark(main), rule: None }
land 1 = NoBookmark
as ann
move - 1
as bob
land 1 = AlreadyIn
land 2 = Denied { place: Path(p), rule: None }
policy allow ann = BadPolicy { line: 0 }
long 3722
policy allow * /; = Denied { place: Policy, rule: None }
land 2 = Denied { place: Path(p), rule: None }
move - = Denied { place: Bookmark(main), rule: None }
as ann
land 2 = Clash { left: p, right: p }
policy allow * /; = Full { size: 4080, length: 16 }
move 0 = Full { size: 4080, length: 77 }
fault breaking
policy allow * /; = Down
policy allow ann = Down
as bob
move 0 = Down
land 2 = Down
?callers = 8 ann/1 ann";

// In a file of the first version there is none.
const OLD: &str = "\
policy allow * /; = OldFormat
policy allow ann = OldFormat
?policy
content abc
line - 1 0
move 0
?callers = 3
fault breaking
policy allow * /; = Down";

#[test]
fn policies_have_texts_and_numbers(rt: HostRuntime) -> Result<(), Fail> {
    run_second(&rt, 65_536, TEXTS)?;
    run_second(&rt, 65_536, LINES)?;
    run_script(&rt, 65_536, OLD)
}

#[test]
fn refusals_have_an_order(rt: HostRuntime) -> Result<(), Fail> {
    run_second(&rt, 4_096, REFUSED)
}

// A policy takes 27 bytes, and a landing that tells `bob` 189.
const FITTING: &str = "\
content abc
line - 1 0
move 0
change 0 p:abc
policy allow * /; = 4
as bob
long 3664
land 1 = 1 kept
?counts = 7 2 2 1 1 4096";

const FULL: &str = "\
content abc
line - 1 0
move 0
change 0 p:abc
policy allow * /; = 4
as bob
long 3665
land 1 = Full { size: 3908, length: 184 }
?counts = 6 2 2 1 0 3908";

// A landing whose payload has 16777216 bytes where no caller is told.
const LARGEST: &str = "\
line - 1 0
move 0
line 0 16 1000000
line 16 1 776090
policy allow * /; = 19
as bob
land 17 = TooLarge { length: 16777221 }
land 16 = 16 kept";

const UNTOLD: &str = "\
line - 1 0
move 0
line 0 16 1000000
line 16 1 776090
land 17 = 17 kept";

#[test]
fn what_tells_a_caller_has_to_fit(rt: HostRuntime) -> Result<(), Fail> {
    run_second(&rt, 4_096, FITTING)?;
    run_second(&rt, 4_096, FULL)?;
    run_second(&rt, MOST, LARGEST)?;
    run_second(&rt, MOST, UNTOLD)
}
