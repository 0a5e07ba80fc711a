//! Ports, and what gives them, through their traits.
ghost use Rattle.std.specs.Prelude.{◌<◌, length};

use mx_outside::{
    AcceptedNow, Listened, MemPort, MemPorts, Port, Ports, PutNow, TcpPorts, TookNow,
};
use std::alloc::Global;
use std::io::{Read, Write};
use std::net::TcpStream;
use std::process::Abort;
use std::test::Fail;

/// What an accept gave.
#[derive(Clone, Copy, PartialEq, Eq, Debug)]
enum Came {
    /// A connection that sent these bytes first, which were sent back.
    Sent([u8; 4]),
    Broken,
    NotYet,
    Closed,
    Failed,
}

/// One call with room for four bytes.
fn take<P: Port>(port: &mut P) -> TookNow {
    let mut into = [0u8; 4];
    port.take_now(&mut into)
}

fn put<P: Port>(port: &mut P, bytes: &[u8]) -> PutNow
    requires { 0 < length bytes.now }
{
    port.put_now(bytes)
}

fn bind<Q: Ports>(ports: &mut Q, address: &str) -> Listened {
    ports.listen(address)
}

/// Rests for a tenth of a second at most, and then takes the next connection, whose first bytes are sent back once they have come.
fn answer<Q: Ports>(ports: &mut Q) -> Came
where
    Q::Port: Drop,
{
    ports.rest(100);
    match ports.accept_now() {
        AcceptedNow::One(mut port) => {
            ports.watch(&mut port, 7);
            ports.rest(100);
            echo(&mut port)
        }
        AcceptedNow::NotYet => Came::NotYet,
        AcceptedNow::Closed => Came::Closed,
        AcceptedNow::Failed => Came::Failed,
    }
}

/// The next connection, behind a rest of a tenth of a second at most.
fn admit<Q: Ports>(ports: &mut Q) -> Option<Q::Port>
where
    Q::Port: Drop,
{
    ports.rest(100);
    match ports.accept_now() {
        AcceptedNow::One(port) => Some(port),
        _ => None,
    }
}

fn echo<P: Port>(port: &mut P) -> Came {
    let mut into = [0u8; 4];
    if let TookNow::Got(count) = port.take_now(&mut into)
        && let PutNow::Put(_) = port.put_now(&into[..count])
    {
        return Came::Sent(into);
    }
    Came::Broken
}

fn port(rt: &impl Abort, alloc: Global, bytes: &[u8], busy: &[u64], failing: &[u64]) -> MemPort {
    let bytes = Vec::from_slice(alloc, bytes).expect(rt, "memory");
    let busy = Vec::from_slice(alloc, busy).expect(rt, "memory");
    let failing = Vec::from_slice(alloc, failing).expect(rt, "memory");
    MemPort::new(alloc, bytes, 3, busy, failing)
}

/// Asserts what the next calls of a port give.
fn expect_takes(rt: &impl Abort, port: &mut MemPort, wanted: &[TookNow]) {
    for want in wanted {
        assert_eq!(rt; take(port), *want);
    }
}

#[test]
fn a_memory_port_moves_pieces_and_is_not_ready_where_listed(rt: HostRuntime) {
    let mut port = port(&rt, rt.alloc(), b"abcdefgh", &[1, 6], &[2]);
    let wanted = [
        TookNow::Got(3),
        TookNow::NotYet,
        TookNow::Got(3),
        TookNow::Failed,
        TookNow::Got(2),
        TookNow::End,
        TookNow::NotYet,
    ];
    expect_takes(&rt, &mut port, &wanted);
    assert_eq!(rt; put(&mut port, b"wxyz"), PutNow::Put(3));
    assert_eq!(rt; put(&mut port, b"z"), PutNow::Put(1));
    assert_eq!(rt; port.written(), b"wxyz".as_slice());
    port.give_up();
}

#[test]
fn memory_ports_are_given_in_order(rt: HostRuntime) -> Result<(), Fail> {
    let alloc = rt.alloc();
    let mut all = Vec::new(alloc);
    all.push(port(&rt, alloc, b"ab", &[], &[]))?;
    all.push(port(&rt, alloc, b"cde", &[], &[]))?;
    let busy = Vec::from_slice(alloc, &[1u64])?;
    let failing = Vec::from_slice(alloc, &[0u64, 3])?;
    let mut ports = MemPorts::new(all, busy, failing);
    assert_eq!(rt; bind(&mut ports, "anywhere"), Listened::Failed);
    let wanted = [
        Came::Sent(*b"ab\0\0"),
        Came::NotYet,
        Came::Sent(*b"cde\0"),
        Came::Failed,
        Came::Closed,
    ];
    for want in wanted {
        assert_eq!(rt; answer(&mut ports), want);
    }
    assert_eq!(rt; bind(&mut ports, "elsewhere"), Listened::Done);
    drop(ports);
    Ok(())
}

#[test]
fn tcp_ports_are_given_once_they_are_bound(rt: HostRuntime) {
    let mut ports = TcpPorts::new(rt.alloc(), rt);
    assert_eq!(rt; answer(&mut ports), Came::Failed);
    assert_eq!(rt; bind(&mut ports, "nowhere"), Listened::Failed);
    assert!(rt; ports.local_addr().is_none());
    assert_eq!(rt; bind(&mut ports, "127.0.0.1:0"), Listened::Done);
    assert_eq!(rt; answer(&mut ports), Came::NotYet);
    let address = ports.local_addr().expect(&rt, "a bound address");
    let mut client = TcpStream::connect(&rt, address).expect(&rt, "a connection");
    assert!(rt; matches!(client.write(b"abc"), Ok(3)));
    assert_eq!(rt; answer(&mut ports), Came::Sent(*b"abc\0"));
    let mut back = [0u8; 4];
    assert!(rt; matches!(client.read(&mut back), Ok(3)));
    assert_eq!(rt; back, *b"abc\0");
    drop(client);
    drop(ports);
}

#[test]
fn a_handle_leaves_what_is_above_the_mean_to_the_others(rt: HostRuntime) {
    let mut ports = TcpPorts::new(rt.alloc(), rt);
    assert_eq!(rt; bind(&mut ports, "127.0.0.1:0"), Listened::Done);
    let mut others = ports.share().expect(&rt, "another handle");
    let address = ports.local_addr().expect(&rt, "a bound address");
    let _clients = [(); 4].map(|_| TcpStream::connect(&rt, address).expect(&rt, "a connection"));
    let one = admit(&mut ports);
    assert!(rt; one.is_some() && admit(&mut ports).is_none());
    let two = admit(&mut others);
    let three = admit(&mut others);
    assert!(rt; two.is_some() && three.is_some());
    'left: for _ in 0..4 {
        assert!(rt; admit(&mut others).is_none());
    }
    let four = admit(&mut others);
    assert!(rt; four.is_some());
}
