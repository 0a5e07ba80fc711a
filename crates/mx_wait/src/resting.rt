//! Those who wait until they are woken.

ghost use Rattle.std.specs.Prelude.{◌≡◌, IfOk};
ghost use Rattle.mx_wait.specs.Parked.{AreWhole};

use crate::counts::Counts;
use crate::flags::Flag;
use crate::names::StreamName;
use crate::parking::{Ticket, Tickets, Wake};
use crate::start::board;
use crate::telling::{Board, Handed, Told};
use mx_ids::{Memory, Seq};
use std::alloc::Global;
use std::rt;
use std::sync::atomic::Ordering;
use std::sync::{Condvar, Mutex, Wait};
use std::time::Duration;

/// A board that threads share, and those who rest until their flags are raised.
#[derive(Drop)]
pub struct Waiters {
    pub(crate) board: Mutex<Board<Flag>>,
    /// Of each stream how many wakers are parked there, or are about to be.
    pub(crate) parked: Counts,
    pub(crate) woken: Condvar,
}

impl Waiters {
    /// Nobody waits yet, and nothing was told. Takes no memory.
    pub fn new(alloc: Global) -> Waiters {
        Waiters {
            board: Mutex::new(board(alloc)),
            parked: Counts::new(),
            woken: Condvar::new(),
        }
    }

    /// Parks a twin of the flag at each stream, but where it is still parked by the tickets of an earlier call. Call it before the
    /// look after which you rest. Earlier registrations stay after `Memory`; a waker too many is harmless.
    pub fn register<R: Wait>(
        &self,
        rt: &R,
        flag: &Flag,
        kept: Option<Tickets>,
    ) -> Result<Tickets, Memory>
        ensures { IfOk result AreWhole }
    {
        let mut board = self.board.lock(rt);
        register_on(&mut board, &self.parked, flag, kept)
    }

    /// Tells the board that a stream has this front, and wakes whom it hands out. Takes no memory, and where nobody is parked at the
    /// stream it waits for nobody. Call it once what they wait for can be seen: who is woken then sees it.
    pub fn moved<R: Wait>(&self, rt: &R, alloc: Global, stream: StreamName, front: u64) -> Told
        ensures { result ≡ record { stream = stream; front = front; made = tt } }
    {
        // Who parks raises the count before it looks. Where the count is 0 here, after the store, whoever parks later
        // looks after the store, and sees it.
        let parked = self.parked.at(stream);
        if parked.load(Ordering::SeqCst) == 0 {
            return Told::of(stream, front);
        }
        // The flags are raised in the board's turn, so that no raise falls between another's look at its flag and its rest.
        let mut board = self.board.lock(rt);
        let Handed { told, wakers } = board.tell(alloc, stream, front);
        parked.fetch_sub(wakers.len() as u64, Ordering::SeqCst);
        wake_all(wakers);
        drop(board);
        self.woken.notify_all();
        told
    }

    /// Returns once the flag was raised more or less often than `seen`, or so many milliseconds have passed. Nothing is claimed of
    /// the time: a clock that can't be read ends the rest.
    pub fn rest<R: Wait + rt::Clock>(&self, rt: &R, flag: &Flag, seen: u64, ms: u64) {
        let most = Duration::from_millis(ms);
        let board = self.board.lock(rt);
        let _ = self
            .woken
            .wait_timeout_while(rt, board, most, |_board| flag.raised() == seen);
    }
}

/// Parks a twin of the flag at each stream at which it isn't parked any more.
fn register_on(
    board: &mut Board<Flag>,
    parked: &Counts,
    flag: &Flag,
    kept: Option<Tickets>,
) -> Result<Tickets, Memory>
    ensures { IfOk result AreWhole }
{
    let events = park(
        board,
        parked,
        StreamName::Events,
        flag,
        kept.map(|kept| kept.events),
    )?;
    let receipts = park(
        board,
        parked,
        StreamName::Receipts,
        flag,
        kept.map(|kept| kept.receipts),
    )?;
    let accounts = park(
        board,
        parked,
        StreamName::Accounts,
        flag,
        kept.map(|kept| kept.accounts),
    )?;
    Ok(Tickets {
        events,
        receipts,
        accounts,
        made: (),
    })
}

/// A ticket of the stream: the kept one, where its waker is still parked there. The count rises before a waker is parked.
fn park(
    board: &mut Board<Flag>,
    parked: &Counts,
    stream: StreamName,
    flag: &Flag,
    kept: Option<Ticket>,
) -> Result<Ticket, Memory>
    ensures { IfOk result (λ t. t.stream ≡ stream) }
{
    if let Some(ticket) = kept
        && ticket.stream == stream
        && board.is_parked(&ticket)
    {
        return Ok(ticket);
    }
    let twin = flag.twin()?;
    parked.at(stream).fetch_add(1, Ordering::SeqCst);
    let ticket = board.park(stream, twin);
    if ticket.is_err() {
        parked.at(stream).fetch_sub(1, Ordering::SeqCst);
    }
    ticket
}

fn wake_all(wakers: Seq<Flag>) {
    for waker in wakers.into_vec() {
        waker.wake();
    }
}
