//! Connections over TCP.
ghost use Rattle.std.specs.Prelude.{◌≡◌, None};

use crate::listener::{Accepted, Listened, Listener};
use crate::tcp_ends::{TcpIn, TcpOut, ends};
use crate::watching::{has_ended, watch};
use std::alloc::Global;
use std::io::{self, ErrorKind, Stdin};
use std::marker::Model;
use std::net::{Net, SocketAddr, TcpListener, TcpStream};
use std::sync::atomic::AtomicBool;
use std::sync::{Arc, Wait};
use std::thread::Threads;
use std::time::Duration;
use std::{rt, thread};

/// A connection may be silent for so many seconds, where nothing else was said.
const SILENCE: u64 = 60;

/// How long a listener rests, in milliseconds, after the system didn't give it a connection.
const MOMENT: u64 = 10;

/// A listener for connections over TCP. Nothing is told of them. Where the system can't give a
/// connection, since its client gave up or no descriptor is free, the listener rests for a moment and
/// goes on: only an address that isn't bound, and a listener that can't be used any more, is a fault.
#[derive(Drop)]
pub struct TcpAccept<R> {
    rt: R,
    alloc: Global,
    input: Stdin,
    listener: Option<TcpListener>,
    silence: u64,
    ends_with_input: bool,
    /// Whether the standard input has ended, where the connections end with it.
    ended: Option<Arc<AtomicBool>>,
    faults: u64,
}

impl<R> Model for TcpAccept<R> {
    ghost use Rattle.std.specs.Prelude.{ℕ};

    ghost Value = { R × ℕ };

    ghost view = { λ s. (s.rt, s.faults) };
}

impl<R> TcpAccept<R>
where
    R: Net<Listener = TcpListener, Stream = TcpStream> + rt::Clock + Wait + Threads + Copy + Drop,
{
    /// A listener on the network of `rt`, which isn't bound yet and has no fault so far. Its
    /// connections may be silent for 60 seconds, and don't end with `input`.
    pub fn new(rt: R, alloc: Global, input: Stdin) -> TcpAccept<R>
        ensures { result ≡ (rt, 0) }
    {
        TcpAccept {
            rt,
            alloc,
            input,
            listener: None,
            silence: SILENCE,
            ends_with_input: false,
            ended: None,
            faults: 0,
        }
    }

    /// The address that is bound, where the listener is bound and the system tells it: it has the port that
    /// the system chose where `listen` was asked for port 0.
    pub fn local_addr(&self) -> Option<SocketAddr> {
        self.listener.as_ref()?.local_addr().ok()
    }

    /// Binds an address, and watches the standard input where the connections end with it: then who waits
    /// for one looks every moment whether it has ended.
    fn bind(&mut self, address: &str) -> io::Result<()>
        ensures { self.new ≡ self.old }
    {
        let listener = TcpListener::bind(&self.rt, address)?;
        if self.ends_with_input {
            listener.set_nonblocking(true)?;
            self.ended = Some(watch(&self.rt, self.alloc, self.input)?);
        }
        self.listener = Some(listener);
        Ok(())
    }

    /// The next connection. None comes any more once the standard input has ended, where the connections
    /// end with it.
    fn next_pair(&self) -> Accepted<TcpIn<R>, TcpOut> {
        let Some(listener) = &self.listener else {
            return Accepted::Failed;
        };
        'waits: for _ in self.rt.forever() {
            let came = listener.accept();
            if has_ended(&self.ended) {
                return Accepted::Closed;
            }
            match came {
                Ok((stream, _)) => {
                    if let Ok((input, output)) = self.ends_of(stream) {
                        return Accepted::Pair(input, output);
                    }
                }
                Err(error) if is_final(error.kind()) => return Accepted::Failed,
                Err(_) => {}
            }
            thread::sleep(&self.rt, Duration::from_millis(MOMENT));
        }
        unreachable!()
    }

    /// The ends of a connection.
    fn ends_of(&self, stream: TcpStream) -> io::Result<(TcpIn<R>, TcpOut)> {
        let ended = match &self.ended {
            Some(ended) => Some(Arc::try_clone(ended)?),
            None => None,
        };
        ends(self.rt, self.alloc, stream, self.silence, ended)
    }
}

/// Whether an error of this kind comes from what isn't a bound socket that listens, or not any more.
fn is_final(kind: ErrorKind) -> bool {
    matches!(kind, ErrorKind::InvalidInput | ErrorKind::Unsupported)
}

impl<R> Listener for TcpAccept<R>
where
    R: Net<Listener = TcpListener, Stream = TcpStream> + rt::Clock + Wait + Threads + Copy + Drop,
{
    type In = TcpIn<R>;

    type Out = TcpOut;

    ghost left = { λ _. None };

    ghost faults = { λ s. s.1 };

    /// Of 0 seconds no connection is accepted.
    fn limit_silence(&mut self, seconds: u64) {
        self.silence = seconds;
    }

    /// It takes effect at the next `listen`.
    fn end_with_input(&mut self) {
        self.ends_with_input = true;
    }

    /// A further call binds another address in place of the one before, which stays where that fails.
    fn listen(&mut self, address: &str) -> Listened {
        match self.bind(address) {
            Ok(()) => Listened::Done,
            Err(_) => {
                self.faults = self.faults.saturating_add(1);
                Listened::Failed
            }
        }
    }

    /// Before the first `Done` of `listen` it fails. Waits for a connection, however often the system
    /// can't give one.
    fn accept(&mut self) -> Accepted<TcpIn<R>, TcpOut> {
        let accepted = self.next_pair();
        if matches!(accepted, Accepted::Failed) {
            self.faults = self.faults.saturating_add(1);
        }
        accepted
    }
}
