//! Contents of a repository in a file that are joined, and how such are read. The ids are those of an independent
//! computation, and the sizes are worked out from the formats.
use crate::repository::{first_repository, new_repository};
use blob_disk::Disk;
use object_id::Id;
use repo_calls::{Ask, AskFault, ChangeFault, Granted, Question, Refusal, Seen};
use repo_state::RepoState;
use std::alloc::Global;
use std::fmt::Write;
use std::process::Abort;
use std::test::Fail;

// What a step tells: `content` stores a text, `-` being the empty one, `join` has the contents of these texts joined, `bytes`
// asks to join what as many bytes name, `read` tells the content of a text, `seal` seals what waits, and `size` tells how
// many bytes the file has.
const ROWS: &str = "\
join abc = NoPiece ba7816bf8f01cfea414140de5dae2223b00361a396177a9cb410ff61f20015ad
bytes 0 = BadParts 0
bytes 31 = BadParts 31
bytes 2080 = BadParts 2080
content abc = ba7816bf8f01cfea414140de5dae2223b00361a396177a9cb410ff61f20015ad
size = 26
join abc abc = 6 bbb59da3af939f7af5f360f2ceb80a496e3bae1cd87dde426db0ae40677e1c2c
size = 138
read abcabc = abcabc
seal = done
read abcabc = abcabc
join abc abc = 6 bbb59da3af939f7af5f360f2ceb80a496e3bae1cd87dde426db0ae40677e1c2c
content abcabc = bbb59da3af939f7af5f360f2ceb80a496e3bae1cd87dde426db0ae40677e1c2c
join abcabc - = NoPiece e3b0c44298fc1c149afbf4c8996fb92427ae41e4649b934ca495991b7852b855
content - = e3b0c44298fc1c149afbf4c8996fb92427ae41e4649b934ca495991b7852b855
join abcabc - = NotAPiece bbb59da3af939f7af5f360f2ceb80a496e3bae1cd87dde426db0ae40677e1c2c
size = 144
join abc - = 3 ba7816bf8f01cfea414140de5dae2223b00361a396177a9cb410ff61f20015ad
size = 144
content x = 2d711642b726b04401627ca9fbac32f5c8530fb1903cc4db02258717921a4881
join abc abc x = 7 a62f0f252f6a51f8d539f2af0b50054b64a310f9d9c31011e054a85ce4049a00
size = 295
read abcabcx = abcabcx
read abcx = NoContent";

// In a file of the first version nothing is joined.
const FIRST: &str = "\
bytes 31 = BadParts 31
join abc = OldFormat
content abc = ba7816bf8f01cfea414140de5dae2223b00361a396177a9cb410ff61f20015ad
join abc abc = OldFormat
size = 26";

fn bytes_of(text: &str) -> &[u8] {
    if text == "-" { b"" } else { text.as_bytes() }
}

// The ids of contents with these texts, one behind another.
fn ids_of(alloc: Global, texts: &str) -> Result<Vec<u8>, Fail> {
    let mut ids = Vec::new(alloc);
    for text in texts.split(" ") {
        let id = Id::of(bytes_of(text));
        ids.extend_from_slice(id.as_bytes().as_slice())?;
    }
    Ok(ids)
}

fn tell_id(alloc: Global, out: &mut String, id: &Id) -> Result<(), Fail> {
    let digits = id.to_hex(alloc)?;
    Ok(out.push_str(digits.as_str())?)
}

fn tell_fault(alloc: Global, out: &mut String, fault: &ChangeFault) -> Result<(), Fail> {
    match fault {
        ChangeFault::Refused(Refusal::NoPiece { id }) => {
            write!(out, "NoPiece ")?;
            tell_id(alloc, out, id)
        }
        ChangeFault::Refused(Refusal::NotAPiece { id }) => {
            write!(out, "NotAPiece ")?;
            tell_id(alloc, out, id)
        }
        ChangeFault::Refused(Refusal::BadParts { length }) => Ok(write!(out, "BadParts {length}")?),
        ChangeFault::Refused(Refusal::OldFormat) => Ok(write!(out, "OldFormat")?),
        _ => Err(Fail::from("a change")),
    }
}

fn tell_granted(alloc: Global, out: &mut String, granted: &Granted) -> Result<(), Fail> {
    match granted {
        Granted::Content(id) => tell_id(alloc, out, id),
        Granted::Whole { id, size } => {
            write!(out, "{size} ")?;
            tell_id(alloc, out, id)
        }
        _ => Err(Fail::from("a content")),
    }
}

fn change<D: Disk>(
    alloc: Global,
    state: &mut RepoState<D>,
    out: &mut String,
    ask: &Ask,
) -> Result<(), Fail> {
    match state.store(alloc, 2, ask) {
        Ok(granted) => tell_granted(alloc, out, &granted),
        Err(fault) => tell_fault(alloc, out, &fault),
    }
}

fn read<D: Disk>(
    alloc: Global,
    state: &mut RepoState<D>,
    out: &mut String,
    text: &str,
) -> Result<(), Fail> {
    let question = Question::Content(Id::of(text.as_bytes()));
    match state.look(alloc, 2, &question) {
        Ok(Seen::Bytes(bytes)) => Ok(out.push_str(str::from_utf8(bytes.as_slice())?)?),
        Ok(_) => Err(Fail::from("a read")),
        Err(fault) => tell_unread(out, &fault),
    }
}

fn tell_unread(out: &mut String, fault: &AskFault) -> Result<(), Fail> {
    match fault {
        AskFault::NoContent { .. } => Ok(write!(out, "NoContent")?),
        _ => Err(Fail::from("a read")),
    }
}

fn seal<D: Disk>(state: &mut RepoState<D>, out: &mut String) -> Result<(), Fail> {
    let stored = state.stored_length();
    match state.seal(2, stored) {
        Ok(()) => Ok(write!(out, "done")?),
        Err(_) => Err(Fail::from("a seal")),
    }
}

// What a step tells.
fn told<D: Disk>(alloc: Global, state: &mut RepoState<D>, step: &str) -> Result<String, Fail> {
    let mut out = String::new(alloc);
    let (word, rest) = step.split_once(" ").unwrap_or((step, ""));
    match word {
        "content" => change(alloc, state, &mut out, &Ask::PutContent(bytes_of(rest)))?,
        "join" => {
            let ids = ids_of(alloc, rest)?;
            change(alloc, state, &mut out, &Ask::PutWhole(ids.as_slice()))?;
        }
        "bytes" => {
            let ids = vec![in alloc; 0; rest.parse()?]?;
            change(alloc, state, &mut out, &Ask::PutWhole(ids.as_slice()))?;
        }
        "read" => read(alloc, state, &mut out, rest)?,
        "seal" => seal(state, &mut out)?,
        _ => write!(out, "{}", state.counts().size)?,
    }
    Ok(out)
}

fn run<D: Disk>(
    rt: &impl Abort,
    alloc: Global,
    state: &mut RepoState<D>,
    script: &str,
) -> Result<(), Fail> {
    for row in script.lines() {
        let (step, wanted) = row.split_once(" = ").ok_or("a row")?;
        let told = told(alloc, state, step)?;
        assert_eq!(rt; told.as_str(), wanted, "{row}");
    }
    Ok(())
}

fn run_on<D: Disk>(
    rt: &impl Abort,
    alloc: Global,
    state: RepoState<D>,
    script: &str,
) -> Result<(), Fail> {
    let mut state = state;
    run(rt, alloc, &mut state, script)
}

#[test]
fn contents_are_joined_and_read(rt: HostRuntime) -> Result<(), Fail> {
    run_on(&rt, rt.alloc(), new_repository(rt.alloc())?, ROWS)
}

#[test]
fn nothing_is_joined_in_a_file_of_the_first_version(rt: HostRuntime) -> Result<(), Fail> {
    run_on(&rt, rt.alloc(), first_repository(rt.alloc())?, FIRST)
}
