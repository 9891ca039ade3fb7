//! Records of both versions, behind those of a file that has both.
use crate::files::{Came, Told, check_file, damaged, put_hex};
use crate::samples::{
    BASE, CALLED_AT_1000, CALLED_CONTENT, CALLED_LANDING, CALLED_MOVE, CALLED_WHOLE,
    FIRST_WITH_MOMENT, FOR_ALL, FOR_ANNE, KNOWN_WHOLE, LANDED, LANDED_AT_0, LANDED_AT_1000,
    LANDED_BY_ANYONE, LANDED_BY_BEN, LANDED_LAST, MOVED, MOVED_BY_BEN, ON_PATHS, OTHER_MOMENT,
    SET_BY_BEN, WHOLE, WITHOUT_CALLER, WITHOUT_END, WITHOUT_LINES, WITHOUT_MOMENT, WITHOUT_PATH,
};
use std::alloc::{AllocError, Global};
use std::process::Abort;
use std::test::Fail;

/// Where the gate behind the records of `BASE` stands.
pub(crate) const GATE: u64 = 322;

// A file of this version and of capacity 65,536, with these records behind those of `BASE`.
fn file_of(alloc: Global, version: u8, records: [&str; 2]) -> Result<Vec<u8>, AllocError> {
    let mut file = Vec::from_slice(alloc, b"BONSAI\x00")?;
    file.extend_from_slice(&[version, 0, 0, 0, 0, 0, 1, 0, 0])?;
    put_hex(&mut file, alloc, BASE)?;
    for record in records {
        put_hex(&mut file, alloc, record)?;
    }
    file.push(0)?;
    Ok(file)
}

/// A file of this version, with these records behind those of `BASE`, opens so.
pub(crate) fn check_next(
    rt: &impl Abort,
    alloc: Global,
    version: u8,
    records: [&str; 2],
    want: Came,
) -> Result<(), Fail> {
    let file = file_of(alloc, version, records)?;
    let row = format!(in alloc; "{version} {records:?}")?;
    check_file(rt, alloc, file.as_slice(), want, row.as_str())
}

// Files of both versions with this record open so.
fn check_both(rt: &impl Abort, alloc: Global, record: &str, want: Came) -> Result<(), Fail> {
    for version in [1, 2] {
        check_next(rt, alloc, version, [record, ""], want)?;
    }
    Ok(())
}

#[test]
fn what_a_change_makes_is_entered(rt: HostRuntime) -> Result<(), Fail> {
    for (record, size) in [
        (MOVED, 400),
        (LANDED, 507),
        (LANDED_AT_0, 520),
        (LANDED_AT_1000, 520),
        (LANDED_LAST, 520),
    ] {
        check_both(&rt, rt.alloc(), record, Ok(Told { entries: 6, size }))?;
    }
    Ok(())
}

#[test]
fn what_no_change_makes_is_damaged(rt: HostRuntime) -> Result<(), Fail> {
    for record in [
        WITHOUT_MOMENT,
        OTHER_MOMENT,
        FIRST_WITH_MOMENT,
        CALLED_MOVE,
        CALLED_LANDING,
        CALLED_AT_1000,
        KNOWN_WHOLE,
        CALLED_WHOLE,
        CALLED_CONTENT,
        WITHOUT_CALLER,
        WITHOUT_PATH,
        WITHOUT_LINES,
        WITHOUT_END,
    ] {
        check_both(&rt, rt.alloc(), record, damaged(GATE))?;
    }
    Ok(())
}

#[test]
fn a_whole_is_entered_in_the_second_version(rt: HostRuntime) -> Result<(), Fail> {
    let alloc = rt.alloc();
    check_next(&rt, alloc, 1, [WHOLE, ""], damaged(GATE))?;
    check_next(
        &rt,
        alloc,
        2,
        [WHOLE, ""],
        Ok(Told {
            entries: 6,
            size: 435,
        }),
    )
}

// Behind a policy that is held each move, landing and further policy tells a caller to whom it is allowed.
#[test]
fn policies_are_entered(rt: HostRuntime) -> Result<(), Fail> {
    let alloc = rt.alloc();
    check_next(&rt, alloc, 1, [FOR_ANNE, ""], damaged(GATE))?;
    check_next(
        &rt,
        alloc,
        2,
        [FOR_ANNE, ""],
        Ok(Told {
            entries: 6,
            size: 348,
        }),
    )?;
    for (policy, next, size) in [
        (FOR_ANNE, CALLED_LANDING, 538),
        (FOR_ANNE, CALLED_AT_1000, 551),
        (FOR_ANNE, CALLED_MOVE, 431),
        (FOR_ANNE, FOR_ANNE, 373),
        (FOR_ANNE, ON_PATHS, 392),
        (ON_PATHS, CALLED_LANDING, 557),
        (ON_PATHS, MOVED_BY_BEN, 449),
        (ON_PATHS, SET_BY_BEN, 390),
        (FOR_ALL, LANDED_BY_BEN, 539),
        (FOR_ALL, LANDED_BY_ANYONE, 545),
        // contents are anyone's
        (FOR_ANNE, WHOLE, 460),
    ] {
        check_next(&rt, alloc, 2, [policy, next], Ok(Told { entries: 7, size }))?;
    }
    Ok(())
}

#[test]
fn what_a_policy_does_not_allow_is_damaged(rt: HostRuntime) -> Result<(), Fail> {
    for (policy, next, gate) in [
        (FOR_ANNE, LANDED, 347),
        (FOR_ANNE, LANDED_AT_1000, 347),
        (FOR_ANNE, MOVED, 347),
        (FOR_ANNE, LANDED_BY_BEN, 347),
        (FOR_ANNE, LANDED_BY_ANYONE, 347),
        (FOR_ANNE, MOVED_BY_BEN, 347),
        (FOR_ANNE, SET_BY_BEN, 347),
        (FOR_ANNE, WITHOUT_CALLER, 347),
        (FOR_ANNE, WITHOUT_PATH, 347),
        (ON_PATHS, LANDED_BY_BEN, 366),
        (FOR_ALL, LANDED, 349),
    ] {
        check_next(&rt, rt.alloc(), 2, [policy, next], damaged(gate))?;
    }
    Ok(())
}
