//! An opener over memory.
use crate::rows::{cut, same};
use ports::{MemOpener, Opener, Slot};
use std::alloc::Global;
use std::test::Fail;

// A name, whether it may be made, and what is opened. The second call is to fail, `old` was taken out by the first, and no
// empty one is left for the last.
const ROWS: &str = "\
old | found | 1
new | made | none
old | made | none
new | found | none
new | made | 8
newer | made | 7
newest | made | none";

// An opener that has `old` and two empty ones, whose second call fails.
fn new_opener(alloc: Global) -> Result<MemOpener<u8>, Fail> {
    let old = Slot {
        name: String::from_str(alloc, "old")?,
        held: Some(1),
    };
    let mut named = Vec::new(alloc);
    named.push(old)?;
    let empty = Vec::from_slice(alloc, &[7, 8])?;
    Ok(MemOpener::new(named, empty, Vec::from_slice(alloc, &[1])?))
}

fn opened(
    alloc: Global,
    opener: &mut MemOpener<u8>,
    name: &str,
    create: bool,
) -> Result<String, Fail> {
    match opener.open(name, create).ok() {
        Some(held) => Ok(format!(in alloc; "{held}")?),
        None => Ok(String::from_str(alloc, "none")?),
    }
}

#[test]
fn names_are_opened_once(rt: HostRuntime) -> Result<(), Fail> {
    let mut opener = new_opener(rt.alloc())?;
    for line in ROWS.lines() {
        let (name, rest) = cut(line);
        let (kind, wanted) = cut(rest);
        let opened = opened(rt.alloc(), &mut opener, name, kind == "made")?;
        same(&rt, opened.as_str(), wanted, line);
    }
    Ok(())
}
