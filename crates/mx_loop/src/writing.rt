//! A step that writes.
ghost use Rattle.std.specs.Prelude.{◌≡◌, ℕ, []};
ghost use Rattle.mx_poll.specs.Aims.Asked.{Site};
ghost use Rattle.mx_poll.specs.OfEngine.Answers.{Stops};
ghost use Rattle.mx_fold.specs.Lists.{Histories};
ghost use Rattle.mx_serve.specs.Sessions.{Moment};
ghost use Rattle.mx_loop.specs.Stands.{IsReading, Stands, Tells, counted, sight};

use crate::line::{Line, Next, Read, State, Stepped};
use mx_outside::{Port, PutNow};
use mx_serve::End;
use std::alloc::Global;

impl<P: Port> Line<P> {
    /// Puts what it can of an answer.
    pub(crate) fn write(&mut self, alloc: Global, next: Next) -> (State, Stepped)
        ensures stands { (site : Site) (stops : Stops) (limit : ℕ) (start : Moment) (lists : Histories) → Stands site stops limit start lists (sight P.left P.written self.old) (State.Writes next)
            → Stands site stops limit start lists (sight P.left P.written self.new) result.0 }
        ensures writes { IsReading (Read.Stays result.0 result.1) }
        ensures tells { Tells result.0 result.1 (counted P.faults P.waits self.old) (counted P.faults P.waits self.new) }
        ensures seen { self.new.seen ≡ self.old.seen }
    {
        if self.out.as_slice().is_empty() {
            return self.after(alloc, next);
        }
        match self.port.put_now(self.out.as_slice()) {
            PutNow::Put(count) => {
                self.out.advance(count);
                (State::Writes(next), Stepped::Moved)
            }
            PutNow::NotYet => (State::Writes(next), Stepped::Resting),
            PutNow::Failed => (State::Ended(End::WriteFault), Stepped::Ended),
        }
    }

    /// What it does once all is put.
    fn after(&mut self, alloc: Global, next: Next) -> (State, Stepped)
        requires empty { self.old.out ≡ [] }
        ensures stands { (site : Site) (stops : Stops) (limit : ℕ) (start : Moment) (lists : Histories) → Stands site stops limit start lists (sight P.left P.written self.old) (State.Writes next)
            → Stands site stops limit start lists (sight P.left P.written self.new) result.0 }
        ensures writes { IsReading (Read.Stays result.0 result.1) }
        ensures tells { Tells result.0 result.1 (counted P.faults P.waits self.old) (counted P.faults P.waits self.new) }
        ensures seen { self.new.seen ≡ self.old.seen }
    {
        self.out.clear(alloc);
        match next {
            Next::Reads => (State::Head, Stepped::Moved),
            Next::Asks => (State::Ended(End::Asked), Stepped::Ended),
            Next::Fills => (State::Ended(End::Full), Stepped::Ended),
            Next::Refuses(fault) => (State::Ended(End::Refused(fault)), Stepped::Ended),
        }
    }
}
