//! Listeners, through their trait.
use mx_outside::{
    Accepted, Listened, Listener, MemListener, MemSink, MemSource, Put, Sink, Source, TcpAccept,
    Took,
};
use std::alloc::Global;
use std::io::{Read, Write};
use std::net::TcpStream;
use std::process::Abort;

/// What an accept gave.
#[derive(Clone, Copy, PartialEq, Eq, Debug)]
enum Came {
    /// A connection that sent these bytes first, which were sent back.
    Sent([u8; 4]),
    Broken,
    Closed,
    Failed,
}

fn bind<L: Listener>(listener: &mut L, address: &str) -> Listened {
    listener.listen(address)
}

/// One connection, whose first bytes are sent back.
fn answer<L: Listener>(listener: &mut L) -> Came
where
    L::In: Drop,
    L::Out: Drop,
{
    match listener.accept() {
        Accepted::Pair(mut source, mut sink) => echo(&mut source, &mut sink),
        Accepted::Closed => Came::Closed,
        Accepted::Failed => Came::Failed,
    }
}

fn echo<S: Source, K: Sink>(source: &mut S, sink: &mut K) -> Came {
    let mut into = [0u8; 4];
    if let Took::Got(count) = source.take(&mut into)
        && let Put::Done = sink.put(&into[..count])
    {
        return Came::Sent(into);
    }
    Came::Broken
}

fn pair(rt: &impl Abort, alloc: Global, bytes: &[u8]) -> (MemSource, MemSink) {
    let bytes = Vec::from_slice(alloc, bytes).expect(rt, "memory");
    let source = MemSource::new(bytes, 4, Vec::new(alloc));
    (source, MemSink::new(alloc, Vec::new(alloc)))
}

/// A listener with two pairs. Its first and its third call fail.
fn two_pairs(rt: &impl Abort, alloc: Global) -> MemListener<MemSource, MemSink> {
    let mut pairs = Vec::new(alloc);
    pairs.push(pair(rt, alloc, b"ab")).expect(rt, "memory");
    pairs.push(pair(rt, alloc, b"cde")).expect(rt, "memory");
    let failing = Vec::from_slice(alloc, &[0u64, 2]).expect(rt, "memory");
    MemListener::new(pairs, failing)
}

#[test]
fn a_memory_listener_gives_its_pairs_and_fails_where_listed(rt: HostRuntime) {
    let mut listener = two_pairs(&rt, rt.alloc());
    assert_eq!(rt; bind(&mut listener, "anywhere"), Listened::Failed);
    let wanted = [
        Came::Sent(*b"ab\0\0"),
        Came::Failed,
        Came::Sent(*b"cde\0"),
        Came::Closed,
        Came::Closed,
    ];
    for want in wanted {
        assert_eq!(rt; answer(&mut listener), want);
    }
    assert_eq!(rt; bind(&mut listener, "elsewhere"), Listened::Done);
    drop(listener);
}

#[test]
fn a_tcp_listener_accepts_once_it_is_bound(rt: HostRuntime) {
    let mut listener = TcpAccept::new(rt, rt.alloc(), rt.stdin());
    assert_eq!(rt; answer(&mut listener), Came::Failed);
    assert_eq!(rt; bind(&mut listener, "nowhere"), Listened::Failed);
    assert!(rt; listener.local_addr().is_none());
    assert_eq!(rt; bind(&mut listener, "127.0.0.1:0"), Listened::Done);
    let address = listener.local_addr().expect(&rt, "a bound address");
    let mut client = TcpStream::connect(&rt, address).expect(&rt, "a connection");
    assert!(rt; matches!(client.write(b"abc"), Ok(3)));
    assert_eq!(rt; answer(&mut listener), Came::Sent(*b"abc\0"));
    let mut back = [0u8; 4];
    assert!(rt; matches!(client.read(&mut back), Ok(3)));
    assert_eq!(rt; back, *b"abc\0");
    drop(client);
    drop(listener);
}
