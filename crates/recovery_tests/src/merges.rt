//! Files with merges.
use crate::files::{Told, damaged};
use crate::samples::{MERGED, MERGED_AGAIN, OTHER_DRAFT, RESOLVED, UNRESOLVED};
use crate::versions::{GATE, check_next};
use std::test::Fail;

#[test]
fn merges_are_entered_where_all_is_resolved(rt: HostRuntime) -> Result<(), Fail> {
    let alloc = rt.alloc();
    for (records, want) in [
        (
            [MERGED, ""],
            Ok(Told {
                entries: 6,
                size: 418,
            }),
        ),
        (
            [MERGED, MERGED_AGAIN],
            Ok(Told {
                entries: 7,
                size: 513,
            }),
        ),
        (
            [OTHER_DRAFT, RESOLVED],
            Ok(Told {
                entries: 7,
                size: 571,
            }),
        ),
        ([OTHER_DRAFT, UNRESOLVED], damaged(430)),
        // a parent isn't known, and the same merge makes no second entry
        ([MERGED_AGAIN, ""], damaged(GATE)),
        ([MERGED, MERGED], damaged(417)),
    ] {
        check_next(&rt, alloc, 2, records, want)?;
    }
    Ok(())
}
