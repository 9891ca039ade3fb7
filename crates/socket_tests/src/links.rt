//! Links over connections at 127.0.0.1, each between two ends of one test.
use crate::still::Still;
use net_ports::{
    IDLE_PATIENCE, READ_PATIENCE, REQUEST_PATIENCE, TcpAccept, TcpLink, WRITE_PATIENCE,
};
use ports::{Accept, Link};
use std::alloc::{AllocError, Global};
use std::io;
use std::io::{Eprint, ErrorKind, Write};
use std::net::{Net, TcpListener, TcpStream};
use std::test::Fail;
use std::time::{Clock, Duration};

const HERE: &str = "127.0.0.1:0";

// What a client sends first, so that the accept gives its connection.
const GREETING: &[u8] = b"hello\n\n";

// A connection's two ends. The system takes the client's before the accept gives the other, and the client has sent the
// greeting.
#[derive(Drop)]
struct Ends<'a, R> {
    client: TcpStream,
    server: TcpLink<&'a R>,
}

fn connected<'a, R: Net<Listener = TcpListener, Stream = TcpStream> + Clock + Eprint>(
    rt: &'a R,
    accept: &mut TcpAccept<&'a R>,
) -> io::Result<Ends<'a, R>> {
    let mut client = TcpStream::connect(rt, accept.local_addr()?)?;
    client.write_all(GREETING)?;
    let Ok(Some(server)) = accept.next() else {
        return Err(io::Error::from(ErrorKind::NotConnected));
    };
    Ok(Ends { client, server })
}

// Reads this many bytes, or fewer where a read fails or the input ends.
fn received<L: Link>(alloc: Global, link: &mut L, most: usize) -> Result<Vec<u8>, AllocError> {
    let mut bytes = Vec::new(alloc);
    let mut buf = [0; 4];
    for _ in 0..most {
        match link.read(&mut buf) {
            Ok(count) if count > 0 => {
                for byte in buf.iter().take(count) {
                    bytes.push(*byte)?;
                }
            }
            _ => break,
        }
        if bytes.len() >= most {
            break;
        }
    }
    Ok(bytes)
}

#[test]
fn lines_go_both_ways_until_the_peer_has_gone(rt: HostRuntime) -> Result<(), Fail> {
    let alloc = rt.alloc();
    let mut accept = TcpAccept::bind(&rt, alloc, HERE)?;
    // the second connection comes from the same accept
    for line in [b"draft\n".as_slice(), b"a longer line\n".as_slice()] {
        let ends = connected(&rt, &mut accept)?;
        let (mut client, mut server) = (TcpLink::new(&rt, ends.client)?, ends.server);
        assert_eq!(rt;
            received(alloc, &mut server, GREETING.len())?.as_slice(),
            GREETING
        );
        assert!(rt; client.write(line).is_ok());
        assert_eq!(rt; received(alloc, &mut server, line.len())?.as_slice(), line);
        assert!(rt; server.write(line).is_ok());
        assert_eq!(rt; received(alloc, &mut client, line.len())?.as_slice(), line);
        drop(client);
        let mut buf = [0; 4];
        assert_eq!(rt; server.read(&mut buf).ok(), Some(0));
        // the system may take some writes until it learns that nobody reads them
        assert!(rt; (0..1000).any(|_| server.write(line).is_err()));
    }
    Ok(())
}

#[test]
fn a_link_sends_at_once_and_waits_for_some_seconds(rt: HostRuntime) -> Result<(), Fail> {
    let mut accept = TcpAccept::bind(&rt, rt.alloc(), HERE)?;
    let mut ends = connected(&rt, &mut accept)?;
    assert_eq!(rt; received(rt.alloc(), &mut ends.server, 7)?.len(), 7);
    // another handle shows the options of the same socket
    let shown = ends.client.try_clone()?;
    let mut client = TcpLink::new(&rt, ends.client)?;
    assert!(rt; shown.nodelay()?);
    assert_eq!(rt; (READ_PATIENCE, WRITE_PATIENCE), (10, 15));
    assert_eq!(rt; shown.read_timeout()?, Some(Duration::from_secs(10)));
    // a shorter time in its place, for a server that sends nothing
    shown.set_read_timeout(Some(Duration::from_millis(5)))?;
    let mut buf = [0; 4];
    assert!(rt; client.read(&mut buf).is_err());
    drop(ends.server);
    assert_eq!(rt; client.read(&mut buf).ok(), Some(0));
    Ok(())
}

#[test]
fn a_kept_connection_may_be_silent_for_a_minute(rt: HostRuntime) -> Result<(), Fail> {
    let mut accept = TcpAccept::bind(&rt, rt.alloc(), HERE)?;
    let mut ends = connected(&rt, &mut accept)?;
    let shown = ends.client.try_clone()?;
    let mut kept = TcpLink::accepted(&rt, ends.client)?;
    let mut buf = [0];
    assert_eq!(rt; IDLE_PATIENCE, 60);
    // the first byte of a request, the next, and the first after an answer
    assert!(rt; ends.server.write(b"ab").is_ok());
    for seconds in [60, 10] {
        assert_eq!(rt; kept.read(&mut buf).ok(), Some(1));
        assert_eq!(rt; shown.read_timeout()?, Some(Duration::from_secs(seconds)));
    }
    assert!(rt; kept.write(b"c").is_ok() && ends.server.write(b"d").is_ok());
    assert_eq!(rt; kept.read(&mut buf).ok(), Some(1));
    assert_eq!(rt; shown.read_timeout()?, Some(Duration::from_secs(60)));
    Ok(())
}

#[test]
fn a_write_fails_where_the_peer_takes_nothing(rt: HostRuntime) -> Result<(), Fail> {
    let mut accept = TcpAccept::bind(&rt, rt.alloc(), HERE)?;
    let mut ends = connected(&rt, &mut accept)?;
    // fifteen waits of a hundredth of a second in place of as many seconds
    let shown = ends.client.try_clone()?;
    let mut client = TcpLink::new(&rt, ends.client)?;
    assert_eq!(rt; shown.write_timeout()?, Some(Duration::from_secs(1)));
    shown.set_write_timeout(Some(Duration::from_millis(10)))?;
    assert!(rt; (0..1000).any(|_| client.write(&[0; 65_536]).is_err()));
    // what was taken is there all the same
    assert_eq!(rt; received(rt.alloc(), &mut ends.server, 1000)?.len(), 1000);
    Ok(())
}

#[test]
fn a_request_has_a_minute_from_its_first_byte(rt: HostRuntime) -> Result<(), Fail> {
    let host = Still::new(&rt);
    let mut accept = TcpAccept::bind(&host, rt.alloc(), HERE)?;
    let mut ends = connected(&host, &mut accept)?;
    assert_eq!(rt; REQUEST_PATIENCE, 60);
    assert_eq!(rt;
        received(rt.alloc(), &mut ends.server, 4)?.as_slice(),
        b"hell".as_slice()
    );
    host.move_to(59);
    let mut buf = [0; 1];
    assert_eq!(rt; ends.server.read(&mut buf).ok(), Some(1));
    host.move_to(60);
    assert!(rt; ends.server.read(&mut buf).is_err());
    // once it is answered, the next one has a minute of its own
    assert!(rt; ends.server.write(b"answer").is_ok());
    assert_eq!(rt; ends.server.read(&mut buf).ok(), Some(1));
    host.move_to(119);
    assert_eq!(rt; ends.server.read(&mut buf).ok(), Some(1));
    Ok(())
}

#[test]
fn an_address_has_one_listener(rt: HostRuntime) -> Result<(), Fail> {
    let alloc = rt.alloc();
    let accept = TcpAccept::bind(&rt, alloc, HERE)?;
    let address = accept.local_addr()?;
    assert!(rt; address.port() > 0);
    let taken = address.to_string(alloc)?;
    for wrong in [taken.as_str(), "127.0.0.1", "127.0.0.1:65536", ""] {
        assert!(rt; TcpAccept::bind(&rt, alloc, wrong).is_err(), "{wrong}");
    }
    drop(accept);
    assert!(rt; TcpAccept::bind(&rt, alloc, taken.as_str()).is_ok());
    Ok(())
}
