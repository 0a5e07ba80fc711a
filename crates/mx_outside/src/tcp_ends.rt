//! The ends of a connection over TCP.
ghost use Rattle.std.specs.Prelude.{◌≡◌, None};
ghost use Rattle.std.specs.Io.{ReadsAtMost};

use crate::sink::{Put, Sink};
use crate::source::{Source, Took};
use crate::streams::Writing;
use crate::watching::has_ended;
use std::alloc::Global;
use std::io::{self, Read};
use std::marker::Model;
use std::net::TcpStream;
use std::rt;
use std::sync::Arc;
use std::sync::atomic::{AtomicBool, AtomicU64, Ordering};
use std::time::{Duration, Instant};

/// What a connection over TCP sends. Nothing is told of its bytes. It is a fault where nothing comes for
/// the time of [`Listener::limit_silence`](crate::Listener::limit_silence), and where what comes once an
/// answer was put, or nothing was yet, goes on for longer than that until the next answer.
#[derive(Drop)]
pub struct TcpIn<R> {
    rt: R,
    stream: TcpStream,
    silence: Duration,
    /// How many answers were put to the other end.
    answers: Arc<AtomicU64>,
    /// How many were when bytes last came; none did yet where there is none.
    answered: Option<u64>,
    /// When more was asked for behind the first bytes of the request that is awaited.
    begun: Option<Instant>,
    /// Whether the connections end behind their next answer.
    ended: Option<Arc<AtomicBool>>,
    faults: u64,
}

/// What a connection over TCP is sent. Nothing is told of its bytes. It is a fault where nothing is
/// taken for half the time of [`Listener::limit_silence`](crate::Listener::limit_silence).
#[derive(Drop)]
pub struct TcpOut {
    stream: Writing<TcpStream>,
    answers: Arc<AtomicU64>,
}

/// Both ends of a connection that may be silent for so many seconds, and ends behind its next answer once
/// `ended` says so. What is put is sent at once where the system can be told so.
pub(crate) fn ends<R: rt::Clock + Drop>(
    rt: R,
    alloc: Global,
    stream: TcpStream,
    silence: u64,
    ended: Option<Arc<AtomicBool>>,
) -> io::Result<(TcpIn<R>, TcpOut)> {
    let _ = stream.set_nodelay(true);
    let silence = Duration::from_secs(silence);
    stream.set_read_timeout(Some(silence))?;
    stream.set_write_timeout(Some(silence / 2))?;
    let input = stream.try_clone()?;
    let answers = Arc::new(alloc, AtomicU64::new(0))?;
    let output = TcpOut {
        stream: Writing::new(stream),
        answers: Arc::try_clone(&answers)?,
    };
    let input = TcpIn {
        rt,
        stream: input,
        silence,
        answers,
        answered: None,
        begun: None,
        ended,
        faults: 0,
    };
    Ok((input, output))
}

impl<R> Model for TcpIn<R> {
    ghost use Rattle.std.specs.Prelude.{ℕ};

    ghost Value = { ℕ };

    ghost view = { λ s. s.faults };
}

impl<R: rt::Clock> TcpIn<R> {
    /// Reads what comes, for as long as the request that is awaited may take.
    fn read(&mut self, into: &mut [u8]) -> io::Result<usize>
        ensures same { self.new ≡ self.old }
        ensures room { ReadsAtMost result into.new }
    {
        let answers = Some(self.answers.load(Ordering::Relaxed));
        if answers == self.answered {
            self.limit_rest()?;
        } else if self.begun.take().is_some() {
            self.stream.set_read_timeout(Some(self.silence))?;
        }
        let count = self.stream.read(into)?;
        self.answered = answers;
        Ok(count)
    }

    /// Bounds the next read by the time that is left for the rest of a request. None is left where the
    /// system refuses the bound.
    fn limit_rest(&mut self) -> io::Result<()>
        ensures same { self.new ≡ self.old }
    {
        let now = Instant::now(&self.rt)?;
        let begun = self.begun.unwrap_or(now);
        self.begun = Some(begun);
        let left = self.silence.saturating_sub(now.duration_since(begun));
        self.stream.set_read_timeout(Some(left))
    }
}

impl<R: rt::Clock> Source for TcpIn<R> {
    ghost left = { λ _. None };

    ghost faults = { λ s. s };

    /// Nothing is read any more once the connections are to end.
    fn take(&mut self, into: &mut [u8]) -> Took {
        if has_ended(&self.ended) {
            return Took::End;
        }
        match self.read(into) {
            Ok(0) => Took::End,
            Ok(count) => Took::Got(count),
            Err(_) => {
                self.faults = self.faults.saturating_add(1);
                Took::Failed
            }
        }
    }
}

impl Model for TcpOut {
    ghost use Rattle.std.specs.Prelude.{ℕ};

    ghost Value = { ℕ };

    ghost view = { λ s. s.stream.1 };
}

impl Sink for TcpOut {
    ghost written = { λ _. None };

    ghost faults = { λ s. s };

    fn put(&mut self, bytes: &[u8]) -> Put {
        let put = self.stream.put(bytes);
        self.answers.fetch_add(1, Ordering::Relaxed);
        put
    }

    /// The other end has gone away where it sends nothing more, or the connection has failed.
    fn is_gone(&mut self) -> bool {
        let gone = has_left(self.stream.writer());
        if gone {
            self.stream.fault();
        }
        gone
    }
}

/// Whether the other end sends nothing more. What it has sent stays to be read.
fn has_left(stream: &TcpStream) -> bool {
    if stream.set_nonblocking(true).is_err() {
        return false;
    }
    let peeked = stream.peek(&mut [0]);
    let reset = stream.set_nonblocking(false);
    let left = match peeked {
        Ok(count) => count == 0,
        Err(error) => !is_passing(error.kind()),
    };
    left || reset.is_err()
}

/// An error after which a connection goes on.
fn is_passing(kind: io::ErrorKind) -> bool {
    matches!(kind, io::ErrorKind::WouldBlock | io::ErrorKind::Interrupted)
}
