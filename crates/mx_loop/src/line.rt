//! What a session holds, and what it does next.

use crate::outbox::Outbox;
use mx_engine::Counts;
use mx_http::{Call, Head, HttpFault, Intake};
use mx_poll::{Mark, Parked, SyncPoll};
use mx_serve::End;

/// A port with what came from it, what is yet to be put, the marks of its answers, and how many stores of each stream were seen at the
/// last of them.
#[derive(Drop)]
pub struct Line<P> {
    pub port: P,
    pub intake: Intake,
    pub out: Outbox,
    pub marks: Vec<Mark>,
    pub seen: Counts,
}

/// What a session does once its answer is put.
#[derive(Clone, Copy, Debug, PartialEq, Eq)]
pub enum Next {
    /// It reads a request.
    Reads,
    /// It ends: the request asked to close.
    Asks,
    /// It ends: so many requests were answered as a connection is served.
    Fills,
    /// It ends: what came is no request, by this fault.
    Refuses(HttpFault),
}

/// A sync that rests.
#[derive(Drop)]
pub struct Rest {
    pub poll: SyncPoll,
    /// The device that asks.
    pub device: u32,
    /// The clock's reading when it was asked.
    pub asked: u64,
    /// The body of its answer isn't written.
    pub head_only: bool,
    /// It asks to close.
    pub close: bool,
    /// The bytes of its answer where memory is wanting for another.
    pub spare: Vec<u8>,
}

/// What a session does.
#[derive(Drop)]
pub enum State {
    /// It reads the head of a request.
    Head,
    /// It reads the body behind a head.
    Body(Head),
    /// It rests in a sync.
    Rests(Rest),
    /// It puts an answer.
    Writes(Next),
    /// It has ended.
    Ended(End),
}

/// What a step came to.
#[derive(Clone, Copy, Debug, PartialEq, Eq)]
pub enum Stepped {
    /// A byte was taken or put, or an answer was made.
    Moved,
    /// The port wasn't ready.
    Resting,
    /// A sync has nothing to tell yet.
    Waiting(Parked),
    /// The session has ended.
    Ended,
}

/// What a step that reads came to.
#[derive(Drop)]
pub enum Read {
    /// A request is whole.
    Call(Call),
    /// None is.
    Stays(State, Stepped),
}
