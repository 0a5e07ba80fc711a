//! What an engine's pass has seen, and the marks of answers that write nothing.

ghost use Rattle.std.specs.Prelude.{◌≡◌, true, IfOk, OnOk};
ghost use Rattle.mx_acts.specs.Acts.{Reads};
ghost use Rattle.mx_engine.specs.Answers.{IsDone, Stops, counts_of, reading};
ghost use Rattle.mx_engine.specs.Shown.{HasLooked, LooksOn, Ties, known_of, made_of, stores_of};
ghost use Rattle.mx_fold.specs.Lists.{Grows, Histories, Lists, lists_of};
ghost use Rattle.mx_rest.specs.Servers.{AreValid};
ghost use Rattle.mx_ask.specs.declared.said.Said.{Said};

use crate::answered::{Answered, Counts, Mark};
use crate::held::{Engine, EnginePass};
use crate::outside::Outside;
use crate::taking::{take_accounts, take_events, take_receipts};
use mx_ask::{Refusal, Said};
use mx_ids::Memory;
use std::alloc::Global;
use std::sync::Wait;

impl EnginePass {
    /// The number of stores of each stream that the pass has seen. Takes no memory.
    pub(crate) fn counts(&self) -> Counts
        ensures { result ≡ counts_of (stores_of self.now) }
    {
        Counts {
            events: self.events.stores(),
            receipts: self.receipts.stores(),
            accounts: self.accounts.stores(),
        }
    }

    /// The mark of an answer that writes nothing and looks at no stream. Takes no memory.
    pub fn mark(&self, now: u64) -> Mark
        ensures { result ≡ reading now (stores_of self.now) }
    {
        Mark {
            events: self.events.stores(),
            receipts: self.receipts.stores(),
            accounts: self.accounts.stores(),
            lane: None,
            own: None,
            marker: None,
            unstored: None,
            now,
            memory: false,
            told: None,
            marker_told: None,
        }
    }

    /// The answer that was read off what the pass knows.
    pub(crate) fn told(&self, now: u64, said: Result<Said, Memory>) -> Answered
        ensures done { (stops : Stops) (reads : Lists → Said) (old : Histories) → Grows old (stores_of self.now) → IfOk said (λ s. s ≡ reads (lists_of (stores_of self.now))) → IsDone stops (Reads reads) old (stores_of self.now) result }
        ensures now { result.mark.now ≡ now }
    {
        match said {
            Err(refused) => self.no_memory(now, refused),
            Ok(said) => Answered {
                said,
                mark: self.mark(now),
            },
        }
    }

    /// The refusal of a request before a writer is asked.
    pub(crate) fn refused(&self, now: u64, refusal: Refusal) -> Answered
        ensures said { result.said ≡ Said.Refused refusal }
        ensures mark { result.mark ≡ reading now (stores_of self.now) }
    {
        Answered {
            said: Said::Refused(refusal),
            mark: self.mark(now),
        }
    }

    /// The answer where memory was wanting before a writer was asked.
    pub fn no_memory(&self, now: u64, refused: Memory) -> Answered
        ensures said { result.said ≡ Said.NoMemory refused }
        ensures mark { result.mark ≡ record (reading now (stores_of self.now)) { memory = true } }
    {
        let mark = self.mark(now);
        Answered {
            said: Said::NoMemory(refused),
            mark: Mark {
                memory: true,
                ..mark
            },
        }
    }
}

impl<G: Outside> Engine<G> {
    /// A look at each stream that answers no items. Waits for nobody and takes no memory.
    pub(crate) fn glance(&self, pass: &mut EnginePass)
        requires ties { Ties self.now pass.old }
        ensures ties { Ties self.now pass.new }
        ensures begins { Grows (stores_of pass.old) (stores_of pass.new) }
        ensures made { made_of pass.new ≡ made_of pass.old }
        ensures looks { HasLooked pass.old pass.new }
    {
        pass.events.glance(self.events.stream());
        pass.receipts.glance(self.receipts.stream());
        pass.accounts.glance(self.accounts.stream());
    }

    /// A look at each stream, after which the pass knows what it has seen. The pass is one of the engine's. Where nothing was stored since it knew of all that it
    /// had seen it waits for nobody.
    pub fn look<R: Wait>(&self, rt: &R, alloc: Global, pass: &mut EnginePass) -> Result<(), Memory>
        requires ties { Ties self.now pass.old }
        ensures ties { Ties self.now pass.new }
        ensures begins { Grows (stores_of pass.old) (stores_of pass.new) }
        ensures made { made_of pass.new ≡ made_of pass.old }
        ensures looks { HasLooked pass.old pass.new }
        ensures known { OnOk result (known_of pass.new ≡ lists_of (stores_of pass.new)) }
        ensures valid { OnOk result (AreValid (known_of pass.new)) }
    {
        self.glance(pass);
        self.take_in(rt, alloc, pass)
    }

    /// The snapshot takes in all that the pass has seen. Of a stream that has more than it knows the pass sees what is there in the
    /// stream's turn; at the others it takes none.
    fn take_in<R: Wait>(&self, rt: &R, alloc: Global, pass: &mut EnginePass) -> Result<(), Memory>
        requires ties { Ties self.now pass.old }
        ensures ties { Ties self.now pass.new }
        ensures begins { Grows (stores_of pass.old) (stores_of pass.new) }
        ensures made { made_of pass.new ≡ made_of pass.old }
        ensures looks { LooksOn pass.old pass.new }
        ensures known { OnOk result (known_of pass.new ≡ lists_of (stores_of pass.new)) }
        ensures valid { OnOk result (AreValid (known_of pass.new)) }
    {
        take_events(
            rt,
            alloc,
            self.events.stream(),
            &mut pass.events,
            &mut pass.snapshot,
            &mut pass.known.events,
        )?;
        take_receipts(
            rt,
            alloc,
            self.receipts.stream(),
            &mut pass.receipts,
            &mut pass.snapshot,
            &mut pass.known.receipts,
        )?;
        take_accounts(
            rt,
            alloc,
            self.accounts.stream(),
            &mut pass.accounts,
            &mut pass.snapshot,
            &mut pass.known.accounts,
        )
    }
}
