//! Lines of words, and what they are.
use program_words::texts::{HELP, USAGE};
use program_words::{asks_session, read_words};
use std::alloc::{AllocError, Global};
use std::process::Abort;
use std::test::Fail;

// Adds the words of a line, each after one space.
fn put_words(alloc: Global, out: &mut Vec<String>, line: &str) -> Result<(), AllocError> {
    for word in line.split(' ') {
        out.push(String::from_str(alloc, word)?)?;
    }
    Ok(())
}

// Adds what the words are.
fn put_read(out: &mut String, alloc: Global, words: &[String]) -> Result<(), Fail> {
    let read = read_words(alloc, words);
    Ok(write!(out, "{read:?}")?)
}

// What the words are, and whether they ask for a session.
fn read(alloc: Global, words: &[String]) -> Result<String, Fail> {
    let mut out = String::new(alloc);
    put_read(&mut out, alloc, words)?;
    write!(&mut out, " {}", asks_session(words))?;
    Ok(out)
}

fn read_line(alloc: Global, line: &str) -> Result<String, Fail> {
    let mut words = Vec::new(alloc);
    put_words(alloc, &mut words, line)?;
    read(alloc, words.as_slice())
}

// A line of words, what they are, and whether they ask for a session.
const LINES: &str = r#"p init r 4096 = Ok(Init { file: "r", capacity: 4096 }) false
p init r 34359738368 = Ok(Init { file: "r", capacity: 34359738368 }) false
p session r = Ok(Session { file: "r" }) true
p session - = Ok(Session { file: "-" }) true
p session  = Ok(Session { file: "" }) true
p session -- --help = Ok(Session { file: "--help" }) true
p -- fsck r = Ok(Fsck { file: "r" }) false
p migrate r s = Ok(Migrate { old: "r", new: "s" }) false
p follow r [::1]:80 = Ok(Follow { file: "r", address: "[::1]:80" }) false
p serve r [::1]:80 4096 0 1000000000000000 = Ok(Serve { file: "r", address: "[::1]:80", lanes: 4096, derivers: 0, connections: 1000000000000000 }) false
p gen 4294967295 400 1 = Ok(Gen { seed: 4294967295, stacks: 400, clients: 1 }) false
p --help = Ok(Help) false
p -h = Ok(Help) false
p gen x --help --none = Ok(Help) false
p -hV = Ok(Help) false
p --version = Ok(Version) false
p -V = Ok(Version) false
p a b c -Vx = Ok(Version) false
p = Err(Usage) false
p  = Err(Usage) false
p inits r 4096 = Err(Usage) false
p Init r 4096 = Err(Usage) false
p init = Err(Usage) false
p init r = Err(Usage) false
p init r 4096 4096 = Err(Usage) false
p init r 4095 = Err(Usage) false
p init r 34359738369 = Err(Usage) false
p init r 04096 = Err(Usage) false
p init r +4096 = Err(Usage) false
p init r 4096. = Err(Usage) false
p init r 18446744073709555712 = Err(Usage) false
p session = Err(Usage) false
p session r r = Err(Usage) false
p session -r = Err(Usage) false
p fsck = Err(Usage) false
p migrate r = Err(Usage) false
p migrate r s t = Err(Usage) false
p follow r = Err(Usage) false
p follow r a 1 = Err(Usage) false
p serve r a 0 0 1 = Err(Usage) false
p serve r a 4097 0 1 = Err(Usage) false
p serve r a 1 9 1 = Err(Usage) false
p serve r a 1 0 0 = Err(Usage) false
p serve r a 1 0 1000000000000001 = Err(Usage) false
p serve r a 1 00 1 = Err(Usage) false
p gen 4294967296 1 1 = Err(Usage) false
p gen 0 0 1 = Err(Usage) false
p gen 0 401 1 = Err(Usage) false
p gen 0 1 0 = Err(Usage) false
p gen 0 1 9 = Err(Usage) false
p gen -1 1 1 = Err(Usage) false
p --hel = Err(Usage) false
p --help=x = Err(Usage) false
p -x --help = Err(Usage) false
p -- --help = Err(Usage) false
p help = Err(Usage) false"#;

fn check(rt: &impl Abort, alloc: Global, row: &str) -> Result<(), Fail> {
    let (line, wanted) = row.split_once(" = ").unwrap_or((row, ""));
    let read = read_line(alloc, line)?;
    assert_eq!(rt; read.as_str(), wanted, "{line}");
    Ok(())
}

#[test]
fn words_are_a_command_or_none(rt: HostRuntime) -> Result<(), Fail> {
    for row in LINES.lines() {
        check(&rt, rt.alloc(), row)?;
    }
    Ok(())
}

#[test]
fn no_words_are_no_command(rt: HostRuntime) -> Result<(), Fail> {
    let read = read(rt.alloc(), &[])?;
    assert_eq!(rt; read.as_str(), "Err(Usage) false");
    Ok(())
}

const FORMS: &str = "\
init FILE CAP
session FILE
serve FILE ADDR LANES DERIVERS CONNECTIONS
fsck FILE
migrate OLD NEW
gen SEED STACKS CLIENTS
follow FILE ADDR";

#[test]
fn texts_name_each_command(rt: HostRuntime) {
    for form in FORMS.lines() {
        assert!(rt; USAGE.contains(form) && HELP.contains(form), "{form}");
    }
}
