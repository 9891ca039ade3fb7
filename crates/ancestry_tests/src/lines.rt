//! Lines of members, and where they part.
use crate::counted::{is_short, nearest};
use ancestry::Chain;
use std::alloc::{AllocError, Global};
use std::test::Fail;

// Two roots, 0 and 5, and branches: 0 - 1 - 2 - 7, 1 - 3 - 4, and 5 - 6.
const PARENTS: [Option<u32>; 8] = [
    None,
    Some(0),
    Some(1),
    Some(1),
    Some(3),
    None,
    Some(5),
    Some(2),
];

// Adds a member of this parent.
fn add(chain: &mut Chain, parent: Option<u32>) -> Result<u32, Fail> {
    let known = chain.len();
    if known > 10_000 || parent.is_some_and(|parent| parent >= known) {
        return Err(Fail::from("a known parent"));
    }
    match parent {
        Some(parent) if parent < known => Ok(chain.add(Some(parent))?),
        _ => Ok(chain.add(None)?),
    }
}

fn two_trees(alloc: Global) -> Result<Chain, Fail> {
    let mut chain = Chain::new(alloc);
    for parent in PARENTS {
        add(&mut chain, parent)?;
    }
    Ok(chain)
}

// Adds so many members, each on the one before it and the first on `from`, and gives the last.
fn add_branch(chain: &mut Chain, from: u32, members: u32) -> Result<u32, Fail> {
    let mut last = from;
    for _ in 0..members {
        last = add(chain, Some(last))?;
    }
    Ok(last)
}

// The last common member of two members of the tree of a root.
fn nearest_of(chain: &Chain, root: u32, a: u32, b: u32) -> Result<Option<u32>, Fail> {
    let known = chain.len();
    if root >= known || a >= known || b >= known {
        return Err(Fail::from("known members"));
    }
    if !is_short(chain, root, a) || !is_short(chain, root, b) {
        return Err(Fail::from("short chains"));
    }
    Ok(nearest(chain, a, b))
}

#[test]
fn long_branches_meet_in_few_steps(rt: HostRuntime) -> Result<(), Fail> {
    let mut chain = Chain::new(rt.alloc());
    let first = add(&mut chain, None)?;
    let trunk = add_branch(&mut chain, first, 4_095)?;
    let branch = add_branch(&mut chain, first, 4_096)?;
    assert_eq!(rt; (first, trunk, branch), (0, 4_095, 8_191));
    assert_eq!(rt; nearest_of(&chain, first, trunk, branch)?, Some(first));
    Ok(())
}

#[test]
fn nearest_is_the_last_common_member(rt: HostRuntime) -> Result<(), Fail> {
    let chain = two_trees(rt.alloc())?;
    for (a, b, wanted) in [
        (7, 4, Some(1)),
        (4, 7, Some(1)),
        (4, 4, Some(4)),
        (1, 4, Some(1)),
        (7, 0, Some(0)),
        (2, 3, Some(1)),
    ] {
        assert_eq!(rt; nearest_of(&chain, 0, a, b)?, wanted, "of {a} and {b}");
    }
    Ok(())
}
