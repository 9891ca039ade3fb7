//! Servers over memory, by tables: from the words, the file and the connections to the status, the line and the file left.
ghost use Rattle.std.specs.Prelude.{◌≡◌};

use crate::given::{calls, empty_opener, link_of, opener_of, words};
use blob_disk::{Disk, MemDisk};
use command_line::{Ran, Status, run};
use net_ports::TcpAccept;
use ports::{
    Accept, Failed, FixedClock, Gate, Link, MemAccept, MemLink, MemOpener, NoGate, Opener,
    ZeroBytes,
};
use std::alloc::Global;
use std::hash::RandomState;
use std::io::{Eprint, Read, Write};
use std::net::{Net, Shutdown, TcpListener, TcpStream};
use std::process::Abort;
use std::sync::atomic::{AtomicU64, Ordering};
use std::sync::{Arc, Wait};
use std::test::Fail;
use std::thread::Threads;
use std::time::Clock;

/// The file of a new repository of 65,536 bytes: the mark of the second version, the capacity and a closed gate.
pub(crate) const NEW: &[u8] = b"BONSAI\x00\x02\x00\x00\x00\x00\x00\x01\x00\x00\x00";

/// The same with the content `abc`: an open gate, a length, the payload and a closed gate.
const WITH_CONTENT: &[u8] =
    b"BONSAI\x00\x02\x00\x00\x00\x00\x00\x01\x00\x00\x01\x00\x00\x00\x04Babc\x00";

/// The same with a changeset without parents and changes, and `main` there.
pub(crate) const WITH_MAIN: &[u8] =
    b"BONSAI\x00\x02\x00\x00\x00\x00\x00\x01\x00\x00\x01\x00\x00\x00\x1aC\x01\x00\x00\x01a\x00\x00\x00\x00\x00\x00\x00\x00\x00\x00\x00\x00\x00\x00\x00\x00\x00\x00\x00\x00\x01\x00\x00\x00\x28M\x04main\x00\x01\xff\xb7H\x80\xae\x0d08\xb6\xe6\xe4\x02\xea\x08\x40cLy\xef\xb3\xc9\x27\xe2\x80\xd4O6V\x7e\xceqi\x00";

pub(crate) const REQUEST: &[u8] = b"PUT /content HTTP/1.1\r\nContent-Length: 3\r\n\r\nabc";

/// How many bytes the answer to it has.
pub(crate) const ANSWER: u64 = 170;

/// How many bytes the answer has that tells where `main` is.
pub(crate) const BOOKMARK: u64 = 179;

/// A link over memory that counts the bytes of writes that were done, where the test can see them.
#[derive(Drop)]
pub(crate) struct SeenLink {
    link: MemLink,
    sent: Arc<AtomicU64>,
}

impl Link for SeenLink {
    ghost faults = { λ l. ⟦<MemLink as Link>⟧.faults l.link };

    ghost rest = { λ l. ⟦<MemLink as Link>⟧.rest l.link };

    ghost written = { λ l. ⟦<MemLink as Link>⟧.written l.link };

    fn read(&mut self, buf: &mut [u8]) -> Result<usize, Failed> {
        self.link.read(buf)
    }

    fn write(&mut self, bytes: &[u8]) -> Result<(), Failed> {
        self.link.write(bytes)?;
        self.sent.fetch_add(bytes.len() as u64, Ordering::SeqCst);
        Ok(())
    }
}

/// A server: its words, the file `repository`, which sync of it fails, how many connections come, what those after the first
/// ask for, which of them can't be written to, and which call of the accept fails. Then its status and its line, the file at the end, and how many bytes went out to
/// the connections.
#[derive(Clone, Copy)]
struct Server {
    line: &'static str,
    file: &'static [u8],
    unsynced: Option<u64>,
    links: u64,
    then: &'static [u8],
    deaf: Option<u64>,
    lost: Option<u64>,
    status: Status,
    said: &'static str,
    left: Option<&'static [u8]>,
    sent: u64,
}

const TWO: Server = Server {
    line: "hg_cli serve repository A 2 0 2",
    file: NEW,
    unsynced: None,
    links: 2,
    then: REQUEST,
    deaf: None,
    lost: None,
    status: Status::Done,
    said: "served 2 entries 1\n",
    left: Some(WITH_CONTENT),
    sent: 2 * ANSWER,
};

const SERVERS: &[Server] = &[
    TWO,
    // a connection that can't be written to ends alone
    Server {
        deaf: Some(0),
        sent: ANSWER,
        ..TWO
    },
    // more come than are taken, and fewer
    Server {
        line: "hg_cli serve repository A 1 8 1",
        said: "served 1 entries 1\n",
        sent: ANSWER,
        ..TWO
    },
    Server {
        line: "hg_cli serve repository A 17 0 1000000000000000",
        ..TWO
    },
    Server {
        links: 0,
        said: "served 0 entries 0\n",
        left: Some(NEW),
        sent: 0,
        ..TWO
    },
    // the accept fails, before the first connection and after it
    Server {
        lost: Some(0),
        status: Status::StreamFault,
        said: "stream fault\n",
        left: Some(NEW),
        sent: 0,
        ..TWO
    },
    Server {
        line: "hg_cli serve repository A 1 0 2",
        lost: Some(1),
        status: Status::StreamFault,
        said: "stream fault\n",
        sent: ANSWER,
        ..TWO
    },
    // the disk fails, which the first answer says; on the next connection a change is refused, and reads go on
    Server {
        line: "hg_cli serve repository A 1 0 2",
        file: WITH_MAIN,
        unsynced: Some(1),
        then: b"PUT /content HTTP/1.1\r\nContent-Length: 3\r\n\r\nabcGET /bookmark/main HTTP/1.1\r\n\r\n",
        status: Status::DiskFault,
        said: "disk fault\n",
        left: None,
        sent: 111 + 105 + BOOKMARK,
        ..TWO
    },
    // no repository
    Server {
        file: b"BONSAI",
        status: Status::BadFile,
        said: "not a repository\n",
        left: Some(b"BONSAI"),
        sent: 0,
        ..TWO
    },
];

// The server's links, the first of which has number 0.
fn links_of(alloc: Global, server: &Server, sent: &Arc<AtomicU64>) -> Result<Vec<SeenLink>, Fail> {
    let mut links = Vec::new(alloc);
    for number in 0..server.links {
        let lost = if server.deaf == Some(number) {
            Some(0)
        } else {
            None
        };
        let input = if number == 0 { REQUEST } else { server.then };
        links.push(seen_link(alloc, input, lost, sent)?)?;
    }
    Ok(links)
}

/// A link with this input, of which this write fails.
pub(crate) fn seen_link(
    alloc: Global,
    input: &[u8],
    lost: Option<u64>,
    sent: &Arc<AtomicU64>,
) -> Result<SeenLink, Fail> {
    let sent = sent.clone()?;
    let link = link_of(alloc, input, lost)?;
    Ok(SeenLink { link, sent })
}

// The connections that come, and the calls of the accept that fail.
fn accept_of(
    alloc: Global,
    server: &Server,
    sent: &Arc<AtomicU64>,
) -> Result<MemAccept<SeenLink>, Fail> {
    let failing = calls(alloc, server.lost)?;
    let links = links_of(alloc, server, sent)?;
    Ok(MemAccept::new(links, failing))
}

fn keys() -> Result<RandomState, Fail> {
    Ok(RandomState::new(&ZeroBytes)?)
}

// A run on these words and this opener, which serves the connections of the accept.
fn run_over<R, D, O, L, A, K, G>(
    rt: &R,
    alloc: Global,
    words: &[String],
    link: &mut L,
    opener: &mut O,
    accept: A,
    gate: &G,
) -> Result<Ran<D, A, K>, Fail>
where
    R: Threads + Wait + Sync,
    D: Disk + Send,
    D::Flush: Send,
    D::Peer: Send,
    O: Opener<D>,
    L: Link,
    A: Accept<K> + Send,
    K: Link + Send,
    G: Gate + Sync,
{
    let keys = keys()?;
    let clock = FixedClock { moment: 0 };
    Ok(run(rt, alloc, keys, words, link, opener, accept, gate, &clock))
}

// A run on this line.
fn run_line<R, L, A, K, G>(
    rt: &R,
    alloc: Global,
    line: &str,
    link: &mut L,
    opener: MemOpener<MemDisk>,
    accept: A,
    gate: &G,
) -> Result<Ran<MemDisk, A, K>, Fail>
where
    R: Threads + Wait + Sync,
    L: Link,
    A: Accept<K> + Send,
    K: Link + Send,
    G: Gate + Sync,
{
    let mut opener = opener;
    let words = words(alloc, line)?;
    run_over(rt, alloc, words.as_slice(), link, &mut opener, accept, gate)
}

/// What a run on this line came to, and a link with this input on which it wrote.
pub(crate) fn ran<R, A, K, G>(
    rt: &R,
    alloc: Global,
    line: &str,
    input: &[u8],
    opener: MemOpener<MemDisk>,
    accept: A,
    gate: &G,
) -> Result<(Ran<MemDisk, A, K>, MemLink), Fail>
where
    R: Threads + Wait + Sync,
    A: Accept<K> + Send,
    K: Link + Send,
    G: Gate + Sync,
{
    let mut link = link_of(alloc, input, None)?;
    let ran = run_line(rt, alloc, line, &mut link, opener, accept, gate)?;
    Ok((ran, link))
}

fn has_left(disk: &Option<MemDisk>, left: Option<&[u8]>) -> bool {
    match (disk, left) {
        (Some(disk), Some(left)) => disk.bytes() == left,
        (disk, _) => disk.is_some(),
    }
}

// A run of this server, and the link on which it wrote.
fn served<R: Threads + Wait + Sync>(
    rt: &R,
    alloc: Global,
    server: &Server,
    sent: &Arc<AtomicU64>,
) -> Result<(Ran<MemDisk, MemAccept<SeenLink>, SeenLink>, MemLink), Fail> {
    let accept = accept_of(alloc, server, sent)?;
    let opener = opener_of(alloc, server.file, server.unsynced)?;
    ran(rt, alloc, server.line, b"GET", opener, accept, &NoGate)
}

fn is_end<A, K: Drop>(ran: &Ran<MemDisk, A, K>, said: &[u8], sent: u64, server: &Server) -> bool {
    has_left(&ran.disk, server.left)
        && ran.status == server.status
        && said == server.said.as_bytes()
        && sent == server.sent
}

// Whether the server ends so.
fn ends_so<R: Threads + Wait + Sync>(rt: &R, alloc: Global, server: &Server) -> Result<bool, Fail> {
    let sent = Arc::new(alloc, AtomicU64::new(0))?;
    let (ran, link) = served(rt, alloc, server, &sent)?;
    let sent = sent.load(Ordering::SeqCst);
    Ok(is_end(&ran, link.written(), sent, server))
}

#[test]
fn a_server_serves_each_connection_and_reports(rt: HostRuntime) -> Result<(), Fail> {
    for (number, server) in SERVERS.iter().enumerate() {
        assert!(rt; ends_so(&rt, rt.alloc(), server)?, "{number}");
    }
    Ok(())
}

// An accept with two links.
fn two_links(alloc: Global) -> Result<MemAccept<SeenLink>, Fail> {
    let sent = Arc::new(alloc, AtomicU64::new(0))?;
    accept_of(alloc, &TWO, &sent)
}

fn gives<L: Drop, A: Accept<L>>(accept: &mut A) -> bool {
    matches!(accept.next(), Ok(Some(_)))
}

// The run ended so, and served none of the two links.
fn check_unserved<R: Abort, A: Accept<K>, K: Drop>(
    rt: &R,
    ran: &mut Ran<MemDisk, A, K>,
    line: &str,
    status: Status,
) {
    assert_eq!(rt; ran.status, status, "{line}");
    assert_eq!(rt; ran.served.count(), 0, "{line}");
    // both connections are still there
    assert!(rt; gives(&mut ran.accept), "{line}");
    assert!(rt; gives(&mut ran.accept), "{line}");
}

// A run on this line, where there is no file, ends so, and no link is served.
fn check_refused<R: Abort + Threads + Wait + Sync>(
    rt: &R,
    alloc: Global,
    line: &str,
    status: Status,
) -> Result<(), Fail> {
    let accept = two_links(alloc)?;
    let (mut ran, _) = ran(rt, alloc, line, b"", empty_opener(alloc), accept, &NoGate)?;
    check_unserved(rt, &mut ran, line, status);
    Ok(())
}

const MISUSED: &str = "\
hg_cli serve repository A 0 0 1
hg_cli serve repository A 4097 0 1
hg_cli serve repository A 1 9 1
hg_cli serve repository A 1 0 0
hg_cli serve repository A 1 0 1000000000000001
hg_cli serve repository A 1 0";

#[test]
fn a_server_takes_nothing_where_its_words_or_its_file_are_wrong(
    rt: HostRuntime,
) -> Result<(), Fail> {
    let alloc = rt.alloc();
    let line = "hg_cli serve repository A 1 0 1";
    check_refused(&rt, alloc, line, Status::DiskFault)?;
    for line in MISUSED.lines() {
        check_refused(&rt, alloc, line, Status::Usage)?;
    }
    Ok(())
}

// A client that has sent the request to the accept.
fn client_of<R: Net<Listener = TcpListener, Stream = TcpStream> + Clock + Eprint>(
    net: &R,
    accept: &TcpAccept<&R>,
) -> Result<TcpStream, Fail> {
    let mut client = TcpStream::connect(net, accept.local_addr()?)?;
    client.write_all(REQUEST)?;
    client.shutdown(Shutdown::Write)?;
    Ok(client)
}

fn length_left(alloc: Global, input: &mut impl Read) -> Result<u64, Fail> {
    let mut bytes = Vec::new(alloc);
    input.read_to_end(&mut bytes)?;
    Ok(bytes.len() as u64)
}

// The status of a server of one connection on a new repository, and the link on which it wrote.
fn ended<R, A, K>(rt: &R, alloc: Global, accept: A) -> Result<(Status, MemLink), Fail>
where
    R: Threads + Wait + Sync,
    A: Accept<K> + Send,
    K: Link + Send,
{
    let opener = opener_of(alloc, NEW, None)?;
    let line = "hg_cli serve repository 127.0.0.1:0 1 0 1";
    let (ran, link) = ran(rt, alloc, line, b"", opener, accept, &NoGate)?;
    Ok((ran.status, link))
}

#[test]
fn a_server_answers_over_a_socket(rt: HostRuntime) -> Result<(), Fail> {
    let alloc = rt.alloc();
    let accept = TcpAccept::bind(&rt, alloc, "127.0.0.1:0")?;
    let mut client = client_of(&rt, &accept)?;
    let (status, link) = ended(&rt, alloc, accept)?;
    assert_eq!(rt; status, Status::Done);
    assert_eq!(rt; link.written(), b"served 1 entries 1\n".as_slice());
    assert_eq!(rt; length_left(alloc, &mut client)?, ANSWER);
    Ok(())
}
