//! What the program does with its words.
ghost use Rattle.std.specs.Prelude.{◌≡◌, ◌≢◌, ◌⊎◌, false, map, None, Some, string_bytes};
ghost use Rattle.program_words.specs.Said.{IsInRange, said_of};
ghost use Rattle.program_words.specs.Words.{command_of};
ghost use Rattle.program_words.specs.Sessions.{is_session};
ghost use Rattle.command_line.specs.declared.report.Report.TheVariants.{NoMemory as NoMemoryLine, Usage as UsageLine};
ghost use Rattle.command_line.specs.Outside.{links, none_served, outside, peer, taken, told};
ghost use Rattle.command_line.specs.Running.{LacksLine, LacksMemory, Runs, Writes, follows_server, makes_load, opens_other, takes_links};
ghost use Rattle.command_line.specs.Serving.{IsServed};

use crate::came::Came;
use crate::follow::run_follow;
use crate::load::run_load;
use crate::migrate::run_migrate;
use crate::ran::{Ran, apart};
use crate::serve::run_serve;
use crate::session::run_session;
use crate::{Outcome, Report, Status, end_run, fsck_file, init_file};
use blob_disk::Disk;
use ports::{Accept, Clock, Gate, Link, Opener};
use program_words::{Command, WordsFault, asks_session, read_words};
use std::alloc::Global;
use std::hash::RandomState;
use std::io::ErrorKind;
use std::sync::Wait;
use std::thread::Threads;

fn say<D: Drop, L: Link>(report: Report, link: &mut L) -> Came<D>
    ensures writes { Writes report result.status (told L.rest L.written L.faults link.old) (told L.rest L.written L.faults link.new) }
    ensures none { result.disk ≡ None }
{
    Came {
        status: end_run(report, link),
        disk: None,
    }
}

pub(crate) fn tell<D: Drop, L: Link>(outcome: Outcome<D>, link: &mut L) -> Came<D>
    ensures writes { Writes outcome.report result.status (told L.rest L.written L.faults link.old) (told L.rest L.written L.faults link.new) }
    ensures disk { result.disk ≡ outcome.disk }
{
    let Outcome { report, disk } = outcome;
    Came {
        status: end_run(report, link),
        disk,
    }
}

// A session writes no line.
fn lack_memory<D: Drop, L: Link>(words: &[String], link: &mut L) -> Came<D>
    ensures line { LacksLine (is_session (command_of (map string_bytes words.now))) result.status (told L.rest L.written L.faults link.old) (told L.rest L.written L.faults link.new) }
    ensures none { result.disk ≡ None }
{
    if asks_session(words) {
        return Came {
            status: Status::NoMemory,
            disk: None,
        };
    }
    say(Report::NoMemory, link)
}

// Runs a command, once its words are read.
fn run_command<R, D, O, L, A, K, G, C>(
    rt: &R,
    alloc: Global,
    keys: RandomState,
    command: Command,
    link: &mut L,
    opener: &mut O,
    accept: A,
    gate: &G,
    clock: &C,
) -> Ran<D, A, K>
where
    R: Threads + Wait + Sync,
    D: Disk + Send,
    D::Flush: Send,
    D::Peer: Send,
    O: Opener<D>,
    L: Link,
    A: Accept<K> + Send,
    K: Link + Send,
    G: Gate + Sync,
    C: Clock + Sync,
    requires { IsInRange command }
    ensures runs { Runs D.meaning (C.tells clock.now) (Some (said_of command.entry)) (outside O.shelf O.faults L.rest L.written L.faults opener.old link.old) (outside O.shelf O.faults L.rest L.written L.faults opener.new link.new) (links A.given A.over A.faults accept result.accept result.served) (peer A.next_link K.rest K.written K.faults accept result.link) (record { status = result.status; disk = result.disk }) result.load result.other }
    ensures served { IsServed (links A.given A.over A.faults accept result.accept (taken result.served result.link)) }
    ensures apart { takes_links (Some (said_of command.entry)) ≡ false → (result.served ≡ none_served) × (result.accept ≡ accept) }
    ensures unloaded { makes_load (Some (said_of command.entry)) ≡ false → result.load ≡ None }
    ensures single { opens_other (Some (said_of command.entry)) ≡ false → result.other ≡ None }
    ensures unlinked { follows_server (Some (said_of command.entry)) ≡ false → result.link ≡ None }
{
    match command {
        Command::Init { file, capacity } => {
            apart(tell(init_file(opener, file, capacity), link), accept)
        }
        Command::Session { file } => apart(
            run_session(alloc, keys, file, link, opener, clock),
            accept,
        ),
        Command::Serve {
            file,
            lanes,
            derivers,
            connections,
            ..
        } => run_serve(
            rt,
            alloc,
            keys,
            file,
            u64::from(lanes),
            u64::from(derivers),
            connections,
            link,
            opener,
            accept,
            gate,
            clock,
        ),
        Command::Fsck { file } => apart(tell(fsck_file(alloc, keys, opener, file), link), accept),
        Command::Migrate { old, new } => run_migrate(alloc, keys, old, new, link, opener, accept),
        Command::Gen {
            seed,
            stacks,
            clients,
        } => {
            let (seed, stacks, clients) = (u64::from(seed), u64::from(stacks), u64::from(clients));
            run_load(rt, alloc, keys, seed, stacks, clients, link, accept)
        }
        Command::Follow { file, .. } => run_follow(alloc, keys, file, link, opener, accept),
        Command::Help => apart(say(Report::Help, link), accept),
        Command::Version => apart(say(Report::Version, link), accept),
    }
}

/// Runs the program on its words, of which the first is its name. `init` and `fsck` report in one line what they found
/// of a file, and `migrate` that it copied a repository to a file of the second version. `session` serves one connection over
/// the link. `serve` serves the connections that the accept gives, in lanes, and reports how many they were. Landings are made
/// at the moments that the clock tells. `gen` makes a generated load in memory, and reports what it came to. `follow` makes the
/// entries of a server, to which the accept gives a link, in the repository in a file, and reports how many are there then.
/// The tables by ids are hashed with these keys, so that whoever doesn't know them can't choose ids which make them slow.
pub fn run<R, D, O, L, A, K, G, C>(
    rt: &R,
    alloc: Global,
    keys: RandomState,
    words: &[String],
    link: &mut L,
    opener: &mut O,
    accept: A,
    gate: &G,
    clock: &C,
) -> Ran<D, A, K>
where
    R: Threads + Wait + Sync,
    D: Disk + Send,
    D::Flush: Send,
    D::Peer: Send,
    O: Opener<D>,
    L: Link,
    A: Accept<K> + Send,
    K: Link + Send,
    G: Gate + Sync,
    C: Clock + Sync,
    ensures runs { Runs D.meaning (C.tells clock.now) (command_of (map string_bytes words.now)) (outside O.shelf O.faults L.rest L.written L.faults opener.old link.old) (outside O.shelf O.faults L.rest L.written L.faults opener.new link.new) (links A.given A.over A.faults accept result.accept result.served) (peer A.next_link K.rest K.written K.faults accept result.link) (record { status = result.status; disk = result.disk }) result.load result.other
        ⊎ LacksMemory (command_of (map string_bytes words.now)) (outside O.shelf O.faults L.rest L.written L.faults opener.old link.old) (outside O.shelf O.faults L.rest L.written L.faults opener.new link.new) (links A.given A.over A.faults accept result.accept result.served) (peer A.next_link K.rest K.written K.faults accept result.link) (record { status = result.status; disk = result.disk }) result.load result.other }
    ensures served { IsServed (links A.given A.over A.faults accept result.accept (taken result.served result.link)) }
    ensures apart { takes_links (command_of (map string_bytes words.now)) ≡ false → (result.served ≡ none_served) × (result.accept ≡ accept) }
    ensures unloaded { makes_load (command_of (map string_bytes words.now)) ≡ false → result.load ≡ None }
    ensures single { opens_other (command_of (map string_bytes words.now)) ≡ false → result.other ≡ None }
    ensures unlinked { follows_server (command_of (map string_bytes words.now)) ≡ false → result.link ≡ None }
{
    match read_words(alloc, words) {
        Ok(command) => run_command(rt, alloc, keys, command, link, opener, accept, gate, clock),
        Err(WordsFault::Usage) => apart(say(Report::Usage, link), accept),
        Err(WordsFault::Memory) => apart(lack_memory(words, link), accept),
    }
}

/// Ends a run whose words the system couldn't give, for a reason of this kind: there was no memory for them, or they
/// are no text (UTF-8), so that they are no command.
pub fn refuse_words<L: Link>(kind: ErrorKind, link: &mut L) -> Status
    ensures memory { kind ≡ ErrorKind.OutOfMemory → Writes NoMemoryLine result (told L.rest L.written L.faults link.old) (told L.rest L.written L.faults link.new) }
    ensures other { kind ≢ ErrorKind.OutOfMemory → Writes UsageLine result (told L.rest L.written L.faults link.old) (told L.rest L.written L.faults link.new) }
{
    if kind == ErrorKind::OutOfMemory {
        end_run(Report::NoMemory, link)
    } else {
        end_run(Report::Usage, link)
    }
}
