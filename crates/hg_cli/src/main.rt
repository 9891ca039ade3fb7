//! The program: `hg_cli init FILE CAP` makes a repository in a file, `hg_cli session FILE` serves one HTTP connection on
//! it over standard input and output, `hg_cli serve FILE ADDR LANES DERIVERS CONNECTIONS` serves connections at an address,
//! `hg_cli fsck FILE` opens it and counts what it holds, `hg_cli migrate OLD NEW` copies it to a file of the second version,
//! `hg_cli gen SEED STACKS CLIENTS` lands a generated load in memory, and `hg_cli follow FILE ADDR` brings a repository to what the
//! server at an address has.
#![tactic(auto)]

mod streams;
mod threads;

use blob_disk::Disk;
use command_line::{Report, Status, end_run, refuse_words, run};
use file_disk::FileOpener;
use net_ports::{ReaderSource, SystemClock, TcpAccept, TcpDial, WriterSink};
use ports::{Accept, Clock, Link, NoGate, Opener, Pair};
use program_words::{Command, number_fault, read_words};
use std::alloc::Global;
use std::hash::RandomState;
use std::io::Eprint;
use std::process::ExitCode;
use std::sync::Wait;
use std::thread::Threads;
use std::{env, io};
use streams::{HeldStreams, hold_streams};
use threads::started_at_once;

// The words of the command line, the program's name first.
fn words(rt: &HostRuntime) -> io::Result<Vec<String>> {
    let mut words = Vec::new(rt.alloc());
    for word in env::args(rt)? {
        words.push(word)?;
    }
    Ok(words)
}

// What connections come from where the words serve at this address, or how that is reported where it can't be listened at.
fn listener_at<'a>(
    rt: &'a HostRuntime,
    address: &str,
) -> Result<TcpAccept<&'a HostRuntime>, Report> {
    match TcpAccept::bind(rt, rt.alloc(), address) {
        Ok(accept) => Ok(accept),
        Err(error) => {
            // where that can't be said either, the report alone says it
            let _ = eprintln!(rt; "can't listen at {address}: {error}");
            Err(Report::StreamFault)
        }
    }
}

// What connections come from where no server is followed. Words that take none listen nowhere.
fn accept_for<'a>(
    rt: &'a HostRuntime,
    words: &[String],
) -> Result<TcpAccept<&'a HostRuntime>, Report> {
    match read_words(rt.alloc(), words) {
        Ok(Command::Serve { address, .. }) => listener_at(rt, address),
        _ => Ok(TcpAccept::absent()),
    }
}

// What the connection comes from where the words follow a server.
fn server_for<'a>(rt: &'a HostRuntime, words: &[String]) -> Option<TcpDial<&'a HostRuntime>> {
    match read_words(rt.alloc(), words) {
        Ok(Command::Follow { address, .. }) => TcpDial::new(rt, rt.alloc(), address).ok(),
        _ => None,
    }
}

// Whether the lanes and the derivers that the words name, if any, can be threads of their own. Where they can't, that is said.
fn has_threads<R: Threads + Wait + Eprint + Sync>(rt: &R, alloc: Global, words: &[String]) -> bool {
    let Ok(
        Command::Serve {
            lanes,
            derivers,
            ..
        },
    ) = read_words(alloc, words)
    else {
        return true;
    };
    let wanted = lanes.saturating_add(derivers);
    let count = started_at_once(rt, wanted);
    if count < wanted {
        let _ = eprintln!(rt; "can't start {wanted} threads at once, but {count}");
    }
    count >= wanted
}

// The status of a run over the connections of this accept, or its report where there is none: the file, whose opening takes
// long where it is large, is opened once all else is there.
fn run_over<R, D, O, L, A, K, C>(
    rt: &R,
    alloc: Global,
    keys: RandomState,
    words: &[String],
    link: &mut L,
    opener: &mut O,
    accept: Result<A, Report>,
    clock: &C,
) -> Status
where
    R: Threads + Wait + Eprint + Sync,
    D: Disk + Send,
    D::Flush: Send,
    D::Peer: Send,
    O: Opener<D>,
    L: Link,
    A: Accept<K> + Send,
    K: Link + Send,
    C: Clock + Sync,
{
    match accept {
        Ok(accept) if has_threads(rt, alloc, words) => {
            run(rt, alloc, keys, words, link, opener, accept, &NoGate, clock).status
        }
        Ok(_) => end_run(Report::NoMemory, link),
        Err(report) => end_run(report, link),
    }
}

// Keys for the tables by ids. Where the system has none to give, that is said on standard error.
fn new_keys(rt: &HostRuntime) -> Option<RandomState> {
    match RandomState::new(rt) {
        Ok(keys) => Some(keys),
        Err(error) => {
            let _ = eprintln!(rt; "no random bytes: {error}");
            None
        }
    }
}

// Says on standard error which number of the words is out of its range.
fn explain(rt: &HostRuntime, words: &[String]) {
    if let Some(fault) = number_fault(rt.alloc(), words) {
        let _ = eprintln!(rt; "{fault}");
    }
}

// Holds the numbers of closed standard streams. Where that can't be done, that is said on standard error.
fn held_streams(rt: &HostRuntime) -> Option<HeldStreams> {
    match hold_streams(rt) {
        Ok(held) => Some(held),
        Err(error) => {
            let _ = eprintln!(rt; "can't hold the numbers of the standard streams: {error}");
            None
        }
    }
}

fn main(rt: HostRuntime) -> ExitCode {
    // first of all, so that no file gets the number of a closed stream
    let Some(_held) = held_streams(&rt) else {
        return ExitCode::from(Status::StreamFault.code());
    };
    let mut link = Pair::new(ReaderSource::new(rt.stdin()), WriterSink::new(rt.stdout()));
    let alloc = rt.alloc();
    let status = match words(&rt) {
        Ok(words) => match new_keys(&rt) {
            Some(keys) => {
                let words = words.as_slice();
                let mut opener = FileOpener::new(&rt);
                let clock = SystemClock::new(&rt);
                let (link, opener) = (&mut link, &mut opener);
                let status = match server_for(&rt, words) {
                    Some(server) => {
                        run_over(&rt, alloc, keys, words, link, opener, Ok(server), &clock)
                    }
                    None => {
                        let accept = accept_for(&rt, words);
                        run_over(&rt, alloc, keys, words, link, opener, accept, &clock)
                    }
                };
                if status == Status::Usage {
                    explain(&rt, words);
                }
                status
            }
            None => Status::StreamFault,
        },
        Err(error) => refuse_words(error.kind(), &mut link),
    };
    ExitCode::from(status.code())
}
