//! What the rules of a policy decide, and where a text is no policy.
use crate::texts::{name, path};
use land_policy::{PolicyFault, Rules, Ruling};
use std::alloc::Global;
use std::test::Fail;

fn rules(alloc: Global, text: &str) -> Result<Rules, Fail> {
    match Rules::parse(alloc, text.as_bytes()) {
        Ok(rules) => Ok(rules),
        Err(_) => Err(Fail::from("a policy")),
    }
}

fn parts(ruling: Option<Ruling>) -> Option<(usize, bool)> {
    match ruling {
        Some(Ruling { number, allows }) => Some((number, allows)),
        None => None,
    }
}

// What decides of a caller at a path, and whether it allows.
fn decided(
    alloc: Global,
    rules: &Rules,
    caller: &str,
    place: &str,
) -> Result<Option<(usize, bool)>, Fail> {
    let caller = name(alloc, caller)?;
    let place = path(alloc, place)?;
    Ok(parts(rules.decide(&caller, &place)))
}

// The line that breaks the grammar.
fn bad_line(alloc: Global, text: &str) -> Option<usize> {
    match Rules::parse(alloc, text.as_bytes()) {
        Err(PolicyFault::BadPolicy { line }) => Some(line),
        Ok(_) | Err(PolicyFault::Memory) => None,
    }
}

#[test]
fn the_first_rule_that_matches_decides(rt: HostRuntime) -> Result<(), Fail> {
    let alloc = rt.alloc();
    let rules = rules(alloc, "allow ann lib\ndeny * lib\nallow * /\n")?;
    assert_eq!(rt; decided(alloc, &rules, "ann", "lib/x")?, Some((0, true)));
    assert_eq!(rt; decided(alloc, &rules, "bob", "lib/x")?, Some((1, false)));
    assert_eq!(rt; decided(alloc, &rules, "bob", "lib")?, Some((1, false)));
    assert_eq!(rt; decided(alloc, &rules, "bob", "libx")?, Some((2, true)));
    Ok(())
}

#[test]
fn a_move_is_decided_under_its_own_name(rt: HostRuntime) -> Result<(), Fail> {
    let alloc = rt.alloc();
    let rules = rules(alloc, "allow ann /\n")?;
    let main = name(alloc, "main")?;
    assert_eq!(rt;
        parts(rules.decide_bookmark(&name(alloc, "ann")?, &main)),
        Some((0, true))
    );
    assert_eq!(rt;
        parts(rules.decide_bookmark(&name(alloc, "bob")?, &main)),
        None
    );
    Ok(())
}

#[test]
fn a_text_that_is_no_policy_is_told_by_its_line(rt: HostRuntime) -> Result<(), Fail> {
    let alloc = rt.alloc();
    assert_eq!(rt; bad_line(alloc, "allow ann\n"), Some(0));
    assert_eq!(rt; bad_line(alloc, ""), Some(0));
    assert_eq!(rt; bad_line(alloc, "allow ann /"), Some(0));
    assert_eq!(rt; bad_line(alloc, "allow ann /\nforbid bob /\n"), Some(1));
    assert_eq!(rt; bad_line(alloc, "allow ann /\n"), None);
    Ok(())
}
