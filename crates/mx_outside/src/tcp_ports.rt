//! Connections over TCP whose calls never wait.
ghost use Rattle.std.specs.Prelude.{◌≡◌, None};

use crate::listener::Listened;
use crate::port::{Port, PutNow, TookNow};
use crate::ports::{AcceptedNow, Ports};
use crate::shares::{Place, Shares};
use mio::net::{TcpListener, TcpStream};
use mio::{Events, Interest, Poll, Token};
use std::alloc::Global;
use std::io::{ErrorKind, Read, Write};
use std::marker::Model;
use std::net::{Net, Shutdown, SocketAddr, ToSocketAddrs};
use std::os::fd::AsFd;
use std::time::Duration;
use std::{io, net};

/// A rest tells of so many ports at most; the others are told of after the next one.
const MOST_READY: usize = 1024;

/// The listener's number among those that are told of.
const LISTENER: usize = usize::MAX;

/// So many calls of `accept_now`, with a rest between them, leave a connection to the other handles of the listener.
const MOST_LEFT: u8 = 4;

/// A rest lasts so many milliseconds at most while a connection is left to other handles.
const LEFT_REST: u64 = 1;

/// A connection over TCP. Nothing is told of its bytes.
#[derive(Drop)]
pub struct TcpPort {
    stream: TcpStream,
    /// None where there was no memory for it.
    _place: Option<Place>,
    faults: u64,
    waits: u64,
}

impl Model for TcpPort {
    ghost use Rattle.std.specs.Prelude.{ℕ};

    ghost Value = { ℕ × ℕ };

    ghost view = { λ s. (s.faults, s.waits) };
}

impl TcpPort {
    /// A connection without a fault so far. What is put is sent at once where the system can be told so.
    fn new(stream: TcpStream, place: Option<Place>) -> TcpPort
        ensures { result ≡ (0, 0) }
    {
        let _ = stream.set_nodelay(true);
        TcpPort {
            stream,
            _place: place,
            faults: 0,
            waits: 0,
        }
    }
}

impl Port for TcpPort {
    ghost left = { λ _. None };

    ghost written = { λ _. None };

    ghost faults = { λ s. s.0 };

    ghost waits = { λ s. s.1 };

    fn take_now(&mut self, into: &mut [u8]) -> TookNow {
        match self.stream.read(into) {
            Ok(0) => TookNow::End,
            Ok(count) => TookNow::Got(count),
            Err(fault) if fault.kind() == ErrorKind::WouldBlock => {
                self.waits = self.waits.saturating_add(1);
                TookNow::NotYet
            }
            Err(_) => {
                self.faults = self.faults.saturating_add(1);
                TookNow::Failed
            }
        }
    }

    /// A write that takes nothing is a fault.
    fn put_now(&mut self, bytes: &[u8]) -> PutNow {
        match self.stream.write(bytes) {
            Err(fault) if fault.kind() == ErrorKind::WouldBlock => {
                self.waits = self.waits.saturating_add(1);
                PutNow::NotYet
            }
            Ok(0) | Err(_) => {
                self.faults = self.faults.saturating_add(1);
                PutNow::Failed
            }
            Ok(count) => PutNow::Put(count),
        }
    }

    /// Both ways are shut down, where the system still can.
    fn give_up(&mut self) {
        self.faults = self.faults.saturating_add(1);
        let _ = self.stream.shutdown(Shutdown::Both);
    }
}

/// Whether connections wait at the listener.
#[derive(Clone, Copy, PartialEq, Eq)]
enum Waiting {
    /// None waits, and the system tells of the next one.
    None,
    /// One may wait.
    One,
    /// One may wait, which is left to the listener's other handles for so many calls more.
    Left(u8),
}

impl Waiting {
    /// The same once the system told of a connection.
    fn told(self) -> Waiting {
        match self {
            Waiting::None => Waiting::One,
            Waiting::One | Waiting::Left(_) => self,
        }
    }
}

/// What waits for sockets: a listener that is bound, the system's set of sockets, and the numbers of those that were found ready.
#[derive(Drop)]
struct Bound {
    listener: TcpListener,
    shares: Shares,
    waiting: Waiting,
    poll: Poll,
    events: Events,
    ready: Vec<usize>,
}

impl Bound {
    fn new<R: Net<Listener = net::TcpListener, Stream = net::TcpStream>>(
        alloc: Global,
        net: &R,
        address: &str,
    ) -> io::Result<Bound> {
        Bound::of(alloc, net, bind(net, address)?, Shares::new(alloc)?)
    }

    /// What waits for a listener's sockets.
    fn of<R: Net>(
        alloc: Global,
        net: &R,
        mut listener: TcpListener,
        shares: Shares,
    ) -> io::Result<Bound> {
        let poll = Poll::new(net)?;
        poll.registry()
            .register(&mut listener, Token(LISTENER), Interest::READABLE)?;
        Ok(Bound {
            listener,
            shares,
            waiting: Waiting::One,
            poll,
            events: Events::with_capacity(alloc, MOST_READY)?,
            ready: Vec::with_capacity(alloc, MOST_READY)?,
        })
    }

    /// The same for another thread: the listener is the same, the set of sockets another.
    fn share<R: Net>(&self, alloc: Global, net: &R) -> io::Result<Bound> {
        let same = self.listener.as_fd().try_clone_to_owned()?;
        let shares = self.shares.beside(alloc)?;
        Bound::of(alloc, net, TcpListener::from(same), shares)
    }

    /// The next connection, if the system gives one, and it isn't left to the listener's other handles.
    fn next_port(&mut self) -> Option<TcpPort> {
        let more = match self.waiting {
            Waiting::None => return None,
            Waiting::One => MOST_LEFT,
            Waiting::Left(more) => more,
        };
        if more > 0 && self.shares.has_more_than_mean() {
            self.waiting = Waiting::Left(more - 1);
            return None;
        }
        self.waiting = Waiting::One;
        match self.listener.accept() {
            Ok((stream, _)) => Some(TcpPort::new(stream, self.shares.place().ok())),
            Err(fault) => {
                if fault.kind() == ErrorKind::WouldBlock {
                    self.waiting = Waiting::None;
                }
                None
            }
        }
    }

    fn rest(&mut self, ms: u64) {
        self.ready.clear();
        let ms = match self.waiting {
            Waiting::Left(_) => ms.min(LEFT_REST),
            Waiting::None | Waiting::One => ms,
        };
        if self
            .poll
            .poll(&mut self.events, Some(Duration::from_millis(ms)))
            .is_err()
        {
            return;
        }
        for event in self.events.iter() {
            match event.token() {
                Token(LISTENER) => self.waiting = self.waiting.told(),
                Token(number) => {
                    let _ = self.ready.push(number);
                }
            }
        }
    }
}

/// A listener at the first of the address's numbers that can be bound, with the longest queue that the system allows.
fn bind<R: Net>(net: &R, address: &str) -> io::Result<TcpListener> {
    let mut last = io::Error::from(ErrorKind::InvalidInput);
    'numbers: for number in address.to_socket_addrs(net)? {
        match TcpListener::bind(net, number) {
            Ok(listener) => return Ok(listener),
            Err(fault) => last = fault,
        }
    }
    Err(last)
}

/// Connections to an address over TCP, with a rest that ends when a socket is ready. Nothing is told of them. A connection that the
/// system couldn't give is passed over: each error of `accept_now` is one of `NotYet`, and after `NotYet` a connection is told of by
/// a rest alone. Handles of one listener take about as many connections each: one that has more than the mean leaves a connection to
/// the others for four rests of at most a millisecond, and takes it if it is still there.
#[derive(Drop)]
pub struct TcpPorts<R> {
    net: R,
    alloc: Global,
    bound: Option<Bound>,
    faults: u64,
    waits: u64,
}

impl<R> Model for TcpPorts<R> {
    ghost use Rattle.std.specs.Prelude.{ℕ};

    ghost Value = { R × ℕ × ℕ };

    ghost view = { λ s. (s.net, s.faults, s.waits) };
}

impl<R: Net<Listener = net::TcpListener, Stream = net::TcpStream>> TcpPorts<R> {
    /// A listener on the network `net`, which isn't bound yet and has no fault so far.
    pub fn new(alloc: Global, net: R) -> TcpPorts<R>
        ensures { result ≡ (net, 0, 0) }
    {
        TcpPorts {
            net,
            alloc,
            bound: None,
            faults: 0,
            waits: 0,
        }
    }

    /// The address that is bound, where the listener is bound and the system tells it: it has the port that the system chose
    /// where `listen` was asked for port 0.
    pub fn local_addr(&self) -> Option<SocketAddr> {
        self.bound.as_ref()?.listener.local_addr().ok()
    }
}

impl<R: Net<Listener = net::TcpListener, Stream = net::TcpStream> + Copy> Ports for TcpPorts<R> {
    type Port = TcpPort;

    ghost left = { λ _. None };

    ghost faults = { λ s. s.1 };

    ghost waits = { λ s. s.2 };

    /// A further call binds another address in place of the one before, which stays where that fails.
    fn listen(&mut self, address: &str) -> Listened {
        match Bound::new(self.alloc, &self.net, address) {
            Ok(bound) => {
                self.bound = Some(bound);
                Listened::Done
            }
            Err(_) => {
                self.faults = self.faults.saturating_add(1);
                Listened::Failed
            }
        }
    }

    /// Before the first `Done` of `listen` it fails.
    fn accept_now(&mut self) -> AcceptedNow<TcpPort> {
        let Some(bound) = &mut self.bound else {
            self.faults = self.faults.saturating_add(1);
            return AcceptedNow::Failed;
        };
        match bound.next_port() {
            Some(port) => AcceptedNow::One(port),
            None => {
                self.waits = self.waits.saturating_add(1);
                AcceptedNow::NotYet
            }
        }
    }

    /// None before the first `Done` of `listen`, or where the system gives no other handle.
    fn share(&self) -> Option<TcpPorts<R>> {
        let bound = self.bound.as_ref()?.share(self.alloc, &self.net).ok()?;
        Some(TcpPorts {
            net: self.net,
            alloc: self.alloc,
            bound: Some(bound),
            faults: 0,
            waits: 0,
        })
    }

    /// A socket that the system can't watch is told of by no rest.
    fn watch(&mut self, port: &mut TcpPort, number: usize) {
        if let Some(bound) = &self.bound {
            let _ = bound.poll.registry().register(
                &mut port.stream,
                Token(number),
                Interest::READABLE | Interest::WRITABLE,
            );
        }
    }

    fn rest(&mut self, ms: u64) {
        if let Some(bound) = &mut self.bound {
            bound.rest(ms);
        }
    }

    fn ready(&mut self) -> Option<usize> {
        self.bound.as_mut()?.ready.pop()
    }
}
