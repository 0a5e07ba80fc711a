//! A step that reads.
ghost use Rattle.std.specs.Prelude.{◌≡◌, ℕ, ◌⊎◌, ◌<◌, ◌+◌, length};
ghost use Rattle.std.specs.Io.KnownBytes.{IsAtEnd};
ghost use Rattle.mx_poll.specs.Aims.Asked.{Site};
ghost use Rattle.mx_poll.specs.OfEngine.Answers.{Stops};
ghost use Rattle.mx_fold.specs.Lists.{Histories};
ghost use Rattle.mx_http.specs.Calls.{HasFault, IsBlank, IsOpenHead};
ghost use Rattle.mx_serve.specs.Sessions.{Moment};
ghost use Rattle.mx_loop.specs.Stands.{IsReading, ReadTells, ReadTo, Stands, counted, sight};

use crate::line::{Line, Next, Read, State, Stepped};
use crate::printed::printed;
use mx_http::{Head, HttpFault, Scratch};
use mx_ids::Memory;
use mx_outside::{Port, TookNow};
use mx_serve::{End, fault_answer};
use std::alloc::Global;

impl<P: Port> Line<P> {
    /// Reads on where no head is whole.
    pub(crate) fn read_head(&mut self, alloc: Global, scratch: &mut Scratch) -> Read
        ensures reads { (site : Site) (stops : Stops) (limit : ℕ) (start : Moment) (lists : Histories) → Stands site stops limit start lists (sight P.left P.written self.old) State.Head
            → ReadTo site stops limit start lists (sight P.left P.written self.new) result }
        ensures reading { IsReading result }
        ensures tells { ReadTells result (counted P.faults P.waits self.old) (counted P.faults P.waits self.new) }
        ensures seen { self.new.seen ≡ self.old.seen }
    {
        match self.intake.find_head(alloc, scratch) {
            Ok(Some(head)) => self.read_body(alloc, head),
            Ok(None) => self.take_head(),
            Err(HttpFault::Memory(refused)) => self.lacks_memory(refused),
            Err(fault) => self.refuse(alloc, fault),
        }
    }

    /// Takes what has come where no head is whole.
    fn take_head(&mut self) -> Read
        requires short { length self.old.intake < 16384 }
        requires open { IsOpenHead self.old.intake ⊎ IsBlank self.old.intake }
        ensures reads { (site : Site) (stops : Stops) (limit : ℕ) (start : Moment) (lists : Histories) → Stands site stops limit start lists (sight P.left P.written self.old) State.Head
            → ReadTo site stops limit start lists (sight P.left P.written self.new) result }
        ensures reading { IsReading result }
        ensures tells { ReadTells result (counted P.faults P.waits self.old) (counted P.faults P.waits self.new) }
        ensures seen { self.new.seen ≡ self.old.seen }
    {
        match self.intake.take_now(&mut self.port) {
            Ok(TookNow::Got(_)) => Read::Stays(State::Head, Stepped::Moved),
            Ok(TookNow::NotYet) => Read::Stays(State::Head, Stepped::Resting),
            Ok(TookNow::End) => self.end_of_input(),
            Ok(TookNow::Failed) => ended(End::ReadFault),
            Err(refused) => ended(End::Memory(refused)),
        }
    }

    /// Want of memory where no head is whole.
    fn lacks_memory(&mut self, refused: Memory) -> Read
        ensures reads { (site : Site) (stops : Stops) (limit : ℕ) (start : Moment) (lists : Histories) → Stands site stops limit start lists (sight P.left P.written self.old) State.Head
            → ReadTo site stops limit start lists (sight P.left P.written self.new) result }
        ensures reading { IsReading result }
        ensures tells { ReadTells result (counted P.faults P.waits self.old) (counted P.faults P.waits self.new) }
        ensures seen { self.new.seen ≡ self.old.seen }
    {
        ended(End::Memory(refused))
    }

    /// The end of the input where no head is whole.
    fn end_of_input(&mut self) -> Read
        requires open { IsOpenHead self.old.intake ⊎ IsBlank self.old.intake }
        requires ended { IsAtEnd (P.left self.old.port) }
        ensures reads { (site : Site) (stops : Stops) (limit : ℕ) (start : Moment) (lists : Histories) → Stands site stops limit start lists (sight P.left P.written self.old) State.Head
            → ReadTo site stops limit start lists (sight P.left P.written self.new) result }
        ensures reading { IsReading result }
        ensures tells { ReadTells result (counted P.faults P.waits self.old) (counted P.faults P.waits self.new) }
        ensures seen { self.new.seen ≡ self.old.seen }
    {
        if self.intake.is_blank() {
            ended(End::Closed)
        } else {
            ended(End::Cut)
        }
    }

    /// Takes up the answer to what is no request.
    fn refuse(&mut self, alloc: Global, fault: HttpFault) -> Read
        requires faulty { HasFault fault self.old.intake }
        ensures reads { (site : Site) (stops : Stops) (limit : ℕ) (start : Moment) (lists : Histories) → Stands site stops limit start lists (sight P.left P.written self.old) State.Head
            → ReadTo site stops limit start lists (sight P.left P.written self.new) result }
        ensures reading { IsReading result }
        ensures tells { ReadTells result (counted P.faults P.waits self.old) (counted P.faults P.waits self.new) }
        ensures seen { self.new.seen ≡ self.old.seen }
    {
        match printed(alloc, &fault_answer(fault), false, true) {
            Ok(bytes) => {
                self.out.set(bytes);
                Read::Stays(State::Writes(Next::Refuses(fault)), Stepped::Moved)
            }
            Err(refused) => ended(End::Memory(refused)),
        }
    }

    /// Reads on behind a head.
    pub(crate) fn read_body(&mut self, alloc: Global, head: Head) -> Read
        ensures reads { (site : Site) (stops : Stops) (limit : ℕ) (start : Moment) (lists : Histories) → Stands site stops limit start lists (sight P.left P.written self.old) (State.Body head)
            → ReadTo site stops limit start lists (sight P.left P.written self.new) result }
        ensures reading { IsReading result }
        ensures tells { ReadTells result (counted P.faults P.waits self.old) (counted P.faults P.waits self.new) }
        ensures seen { self.new.seen ≡ self.old.seen }
    {
        match self.intake.take_body(alloc, &head) {
            Ok(Some(body)) => Read::Call(head.with_body(body)),
            Ok(None) => self.take_body(head),
            Err(refused) => ended(End::Memory(refused)),
        }
    }

    /// Takes what has come where a body isn't whole.
    fn take_body(&mut self, head: Head) -> Read
        requires short { length self.old.intake < head.len + head.size }
        ensures reads { (site : Site) (stops : Stops) (limit : ℕ) (start : Moment) (lists : Histories) → Stands site stops limit start lists (sight P.left P.written self.old) (State.Body head)
            → ReadTo site stops limit start lists (sight P.left P.written self.new) result }
        ensures reading { IsReading result }
        ensures tells { ReadTells result (counted P.faults P.waits self.old) (counted P.faults P.waits self.new) }
        ensures seen { self.new.seen ≡ self.old.seen }
    {
        match self.intake.take_now(&mut self.port) {
            Ok(TookNow::Got(_)) => Read::Stays(State::Body(head), Stepped::Moved),
            Ok(TookNow::NotYet) => Read::Stays(State::Body(head), Stepped::Resting),
            Ok(TookNow::End) => ended(End::Cut),
            Ok(TookNow::Failed) => ended(End::ReadFault),
            Err(refused) => ended(End::Memory(refused)),
        }
    }
}

/// The session has ended.
fn ended(end: End) -> Read
    ensures { result ≡ Read.Stays (State.Ended end) Stepped.Ended }
{
    Read::Stays(State::Ended(end), Stepped::Ended)
}
