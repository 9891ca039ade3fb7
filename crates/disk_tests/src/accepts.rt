//! An accept over memory.
use crate::rows::{cut, numbers, same};
use ports::{Accept, MemAccept};
use std::alloc::{AllocError, Global};
use std::test::Fail;

// The links, a letter each, the calls that are to fail, a digit each, and what each of five calls gives: a link, `!` for
// a call that fails, or `.` for the end. A call may fail where no link is left, until the end was told.
const ROWS: &str = r#" |  | .....
ab |  | ab...
abcdefg |  | abcde
ab | 02 | !a!b.
 | 0 | !....
a | 1 | a!...
a | 23 | a...."#;

// What the calls give, through the bound.
fn calls<A: Accept<u8>>(alloc: Global, accept: &mut A) -> Result<String, AllocError> {
    let mut told = String::new(alloc);
    for _ in 0..5 {
        match accept.next() {
            Err(_) => told.push('!')?,
            Ok(None) => told.push('.')?,
            Ok(Some(link)) => told.push(char::from(link))?,
        }
    }
    Ok(told)
}

fn told(alloc: Global, links: &str, failing: &str) -> Result<String, Fail> {
    let failing = numbers(alloc, failing)?;
    let links = Vec::from_slice(alloc, links.as_bytes())?;
    let mut accept = MemAccept::new(links, failing);
    Ok(calls(alloc, &mut accept)?)
}

#[test]
fn links_are_given_in_order_and_once(rt: HostRuntime) -> Result<(), Fail> {
    for line in ROWS.lines() {
        let (links, rest) = cut(line);
        let (failing, wanted) = cut(rest);
        let told = told(rt.alloc(), links, failing)?;
        same(&rt, told.as_str(), wanted, line);
    }
    Ok(())
}
