//! What was told of the streams' fronts.

ghost use Rattle.std.specs.Prelude.{◌≡◌, OnOk, OnErr, IfOk, nat_eq};
ghost use Rattle.mx_wait.specs.Parked.{after_telling, handed, round_at, ticket_at, told_at, with_parked};

use crate::names::StreamName;
use crate::parking::{Registry, Ticket, Wake};
use mx_ids::{Memory, Seq};
use std::alloc::Global;

/// Those who wait at the streams, and the greatest front of each that was told, 0 at first.
#[derive(Drop)]
pub struct Board<W: Drop> {
    pub(crate) wakers: Registry<W>,
    pub(crate) events: u64,
    pub(crate) receipts: u64,
    pub(crate) accounts: u64,
}

/// That a front of a stream was told: made by [`Board::tell`], and where nobody is parked by [`crate::Waiters::moved`], alone.
#[derive(Clone, Copy, Debug, PartialEq, Eq)]
pub struct Told {
    pub stream: StreamName,
    pub front: u64,
    made: (),
}

impl Told {
    pub(crate) fn of(stream: StreamName, front: u64) -> Told
        ensures { result ≡ record { stream = stream; front = front; made = tt } }
    {
        Told {
            stream,
            front,
            made: (),
        }
    }
}

/// What a board hands out when it is told a front.
#[derive(Drop)]
pub struct Handed<W: Drop> {
    pub told: Told,
    pub wakers: Seq<W>,
}

impl<W: Wake + Drop> Board<W> {
    /// Puts a waker behind those that wait at a stream. On `Memory` nothing changes, and the waker is dropped.
    pub fn park(&mut self, stream: StreamName, waker: W) -> Result<Ticket, Memory>
        ensures parked { OnOk result (self.new ≡ record self.old { wakers = with_parked self.old.wakers stream waker }) }
        ensures ticket { IfOk result (λ t. t ≡ ticket_at self.old.wakers stream) }
        ensures same { OnErr result (self.new ≡ self.old) }
    {
        self.wakers.park(stream, waker)
    }

    /// Whether the wakers of the ticket's stream weren't handed out since it was made, but for 2^64 times.
    pub fn is_parked(&self, ticket: &Ticket) -> bool
        ensures { result ≡ nat_eq (round_at self.now.wakers ticket.now.stream) ticket.now.number }
    {
        self.wakers.is_parked(ticket)
    }

    /// Tells that a stream has this front: hands out all who wait at it, where it is greater than all that were told before.
    /// Takes no memory.
    pub fn tell(&mut self, alloc: Global, stream: StreamName, front: u64) -> Handed<W>
        ensures told { result.told ≡ record { stream = stream; front = front; made = tt } }
        ensures wakers { result.wakers ≡ handed self.old.wakers stream (told_at self.old stream) front }
        ensures rest { self.new ≡ after_telling self.old stream front }
    {
        let before = self.told(stream);
        let wakers = self.wakers.publish(alloc, stream, before, front);
        match stream {
            StreamName::Events => self.events = before.max(front),
            StreamName::Receipts => self.receipts = before.max(front),
            StreamName::Accounts => self.accounts = before.max(front),
        }
        Handed {
            told: Told::of(stream, front),
            wakers,
        }
    }

    fn told(&self, stream: StreamName) -> u64
        ensures { result ≡ told_at self.now stream }
    {
        match stream {
            StreamName::Events => self.events,
            StreamName::Receipts => self.receipts,
            StreamName::Accounts => self.accounts,
        }
    }
}
