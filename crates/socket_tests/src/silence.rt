//! Connections that ask nothing, beside those that do.
use crate::still::Still;
use net_ports::{MOST_SILENT, PAUSE, SILENCE, TcpAccept, TcpLink};
use ports::{Accept, Link};
use std::io;
use std::io::{Eprint, ErrorKind, Read, Write};
use std::net::{Net, Shutdown, TcpListener, TcpStream};
use std::test::Fail;
use std::time::{Clock, Duration};

const HERE: &str = "127.0.0.1:0";

// A client that has sent these bytes.
fn client_of<R: Net<Listener = TcpListener, Stream = TcpStream> + Clock + Eprint>(
    net: &R,
    accept: &TcpAccept<&R>,
    bytes: &[u8],
) -> io::Result<TcpStream> {
    let mut client = TcpStream::connect(net, accept.local_addr()?)?;
    client.write_all(bytes)?;
    Ok(client)
}

// The first byte of the next link that the accept gives.
fn next_byte<R: Clock + Eprint>(accept: &mut TcpAccept<&R>) -> Option<u8> {
    let Ok(Some(mut link)) = accept.next() else {
        return None;
    };
    let mut buf = [0; 1];
    match link.read(&mut buf) {
        Ok(1) => Some(buf[0]),
        _ => None,
    }
}

#[test]
fn what_asks_is_given_before_what_is_silent(rt: HostRuntime) -> Result<(), Fail> {
    let alloc = rt.alloc();
    let mut accept = TcpAccept::bind(&rt, alloc, HERE)?;
    let mut silent = Vec::new(alloc);
    for bytes in [
        b"".as_slice(),
        b"b",
        b"\r\n",
        b"b\n",
        b"b\r\nb\r\n\r",
        b"\r",
    ] {
        for _ in 0..30 {
            silent.push(client_of(&rt, &accept, bytes)?)?;
        }
    }
    for (bytes, first) in [
        (b"a\n\n".as_slice(), b'a'),
        (b"\r\n\nA b\r\nC: d\r\n\r\n", b'\r'),
    ] {
        let _active = client_of(&rt, &accept, bytes)?;
        assert_eq!(rt; next_byte(&mut accept), Some(first));
    }
    // one that was silent asks, others have gone
    let (Some(leaving), Some(mut asking)) = (silent.pop(), silent.get(40)) else {
        panic!(rt; "no clients");
    };
    leaving.shutdown(Shutdown::Write)?;
    asking.write_all(b"c\r\n\r\n")?;
    assert_eq!(rt; next_byte(&mut accept), Some(b'b'));
    Ok(())
}

#[test]
fn several_that_ask_at_once_are_each_given_once(rt: HostRuntime) -> Result<(), Fail> {
    let alloc = rt.alloc();
    let mut accept = TcpAccept::bind(&rt, alloc, HERE)?;
    let mut clients = Vec::new(alloc);
    for _ in 0..100 {
        clients.push(client_of(&rt, &accept, b"b\n")?)?;
    }
    let _active = client_of(&rt, &accept, b"a\n\n")?;
    assert_eq!(rt; next_byte(&mut accept), Some(b'a'));
    for client in clients.iter_mut() {
        client.write_all(b"\n")?;
    }
    let given = (0..100).filter(|_| next_byte(&mut accept) == Some(b'b'));
    assert_eq!(rt; given.count(), 100);
    // more than a head may have is given too
    let _long = client_of(&rt, &accept, &[b'd'; 16_384])?;
    assert_eq!(rt; next_byte(&mut accept), Some(b'd'));
    Ok(())
}

#[test]
fn a_silent_connection_is_closed_after_a_minute(rt: HostRuntime) -> Result<(), Fail> {
    assert_eq!(rt; (MOST_SILENT, SILENCE, PAUSE), (10_000, 60, 50));
    let host = Still::new(&rt);
    let mut accept = TcpAccept::bind(&host, rt.alloc(), HERE)?;
    let mut old = client_of(&host, &accept, b"o")?;
    let _first = client_of(&host, &accept, b"a\n\n")?;
    assert_eq!(rt; next_byte(&mut accept), Some(b'a'));
    host.move_to(SILENCE / 2);
    // another byte doesn't let it stay longer
    old.write_all(b"o")?;
    let mut young = client_of(&host, &accept, b"c")?;
    let _second = client_of(&host, &accept, b"b\n\n")?;
    assert_eq!(rt; next_byte(&mut accept), Some(b'b'));
    host.move_to(SILENCE);
    young.write_all(b"\n\n")?;
    assert_eq!(rt; next_byte(&mut accept), Some(b'c'));
    // the other has been closed meanwhile
    old.set_read_timeout(Some(Duration::from_secs(5)))?;
    let mut buf = [0; 1];
    assert!(rt; !matches!(old.read(&mut buf), Ok(1)));
    Ok(())
}

#[test]
fn an_accept_without_a_listener_fails_each_time(rt: HostRuntime) -> Result<(), Fail> {
    let mut accept = TcpAccept::<&HostRuntime>::absent();
    for _ in 0..3 {
        assert!(rt; accept.next().is_err());
    }
    let kind = accept.local_addr().map_err(|e| e.kind()).err();
    assert_eq!(rt; kind, Some(ErrorKind::NotConnected));
    Ok(())
}
