//! A server that is followed over a socket, while it serves in a lane.
use crate::given::{link_of, opener_of, words};
use crate::servers::{NEW, WITH_MAIN};
use blob_disk::MemDisk;
use command_line::{Ran, Status, run};
use net_ports::{TcpAccept, TcpDial};
use ports::{Accept, FixedClock, Link, MemLink, MemOpener, NoGate, ZeroBytes};
use std::alloc::Global;
use std::hash::RandomState;
use std::io::Eprint;
use std::net::{Net, TcpListener, TcpStream};
use std::sync::Wait;
use std::test::Fail;
use std::thread::{Threads, join};
use std::time::Clock;

// A run on these words, in a thread that has nobody to tell a failure of the test to.
fn run_over<R, A, K>(
    rt: &R,
    alloc: Global,
    words: &[String],
    link: &mut MemLink,
    opener: &mut MemOpener<MemDisk>,
    accept: A,
) -> Option<Ran<MemDisk, A, K>>
where
    R: Threads + Wait + Sync,
    A: Accept<K> + Send,
    K: Link + Send,
{
    let keys = RandomState::new(&ZeroBytes).ok()?;
    let clock = FixedClock { moment: 0 };
    Some(run(
        rt, alloc, keys, words, link, opener, accept, &NoGate, &clock,
    ))
}

// A run on this line and a file with these bytes.
fn run_on<R, A, K>(
    rt: &R,
    alloc: Global,
    line: &str,
    link: &mut MemLink,
    file: &[u8],
    accept: A,
) -> Option<Ran<MemDisk, A, K>>
where
    R: Threads + Wait + Sync,
    A: Accept<K> + Send,
    K: Link + Send,
{
    let words = words(alloc, line).ok()?;
    let mut opener = opener_of(alloc, file, None).ok()?;
    run_over(rt, alloc, words.as_slice(), link, &mut opener, accept)
}

// Whether a server of one connection ends well.
fn served<R>(rt: &R, alloc: Global, accept: TcpAccept<&R>) -> Option<bool>
where
    R: Threads + Wait + Sync + Net<Listener = TcpListener, Stream = TcpStream> + Clock + Eprint,
{
    let line = "hg_cli serve repository A 1 0 1";
    let mut link = link_of(alloc, b"", None).ok()?;
    let ran = run_on(rt, alloc, line, &mut link, WITH_MAIN, accept)?;
    Some(ran.status == Status::Done)
}

fn has_followed<A, K: Drop>(ran: &Ran<MemDisk, A, K>, said: &[u8]) -> bool {
    match &ran.disk {
        Some(disk) => {
            ran.status == Status::Done
                && said == b"followed 2\n".as_slice()
                && disk.bytes() == WITH_MAIN
        }
        None => false,
    }
}

// Whether a new repository that follows the server at this address becomes as its own.
fn is_followed<R>(rt: &R, alloc: Global, address: &str) -> Option<bool>
where
    R: Threads + Wait + Sync + Net<Listener = TcpListener, Stream = TcpStream> + Clock + Eprint,
{
    let line = "hg_cli follow repository A";
    let accept = TcpDial::new(rt, alloc, address).ok()?;
    let mut link = link_of(alloc, b"", None).ok()?;
    let ran = run_on(rt, alloc, line, &mut link, NEW, accept)?;
    Some(has_followed(&ran, link.written()))
}

#[test]
fn a_server_is_followed_over_a_socket(rt: HostRuntime) -> Result<(), Fail> {
    let alloc = rt.alloc();
    let accept = TcpAccept::bind(&rt, alloc, "127.0.0.1:0")?;
    let address = format!(in alloc; "{}", accept.local_addr()?)?;
    let host = &rt;
    let address = address.as_str();
    let serve = move || served(host, alloc, accept);
    let (served, followed) = join(host, serve, || is_followed(host, alloc, address));
    assert_eq!(rt; served, Some(true));
    assert_eq!(rt; followed, Some(true));
    Ok(())
}
