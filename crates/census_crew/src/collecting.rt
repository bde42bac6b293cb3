//! Sharing a run among workers, and collecting what they send.
ghost use Rattle.std.specs.Prelude.{◌≡◌, ℕ, List, [], Option, true, false, MatchResult, IfErr, IfNone, IfOk, OnOk};
ghost use Rattle.census_crew.specs.Faults.{FitsFault, TellsNoTicket};
ghost use Rattle.census_crew.specs.Writing.{StaysInStep, StopsInStep};

use crate::gate::Gate;
use crate::handles::Hand;
use crate::run_state::RunState;
use crate::working::{Batch, Task, work_beside};
use census_faults::RunFault;
use crossbeam_channel::Receiver;
use std::alloc::Global;
use std::io::Write;
use std::sync::Wait;
use std::thread::Threads;
use watched::{Failed, Output};

/// The caller's task while its workers work: it takes what they send, and writes what that releases.
struct CollectTask<'c, 'a, W: Write> {
    state: RunState<'a>,
    results: Receiver<Batch<'a>, Global>,
    out: &'c mut Output<W>,
}

impl<'c, 'a, W: Write> Drop for CollectTask<'c, 'a, W> {
    fn drop(self) {
        let CollectTask {
            state,
            results,
            out: _,
        } = self;
        drop(state);
        drop(results);
    }
}

/// The state of the run once no more results come, or the writer has failed.
struct TaskEnd<'c, 'a, W: Write> {
    state: RunState<'a>,
    written: Result<(), Failed>,
    out: &'c mut Output<W>,
}

impl<'c, 'a, W: Write> Task for CollectTask<'c, 'a, W> {
    type Output = TaskEnd<'c, 'a, W>;

    ghost can_run = { λ s. s.out.now.stream.failed ≡ false };

    ghost run_gives = { λ s r.
        (r.out.ghost_name ≡ s.out.ghost_name)
        × MatchResult r.written
        (λ _. r.out.now.stream.failed ≡ false)
        (λ _. r.out.now.stream.failed ≡ true)
        × MatchResult r.written
        (λ _. StaysInStep s.out.now.stream.written s.state.collector
        r.out.now.stream.written r.state.collector)
        (λ _. StopsInStep s.out.now.stream.written s.state.collector
        r.out.now.stream.written)
        × OnOk r.written (r.state.collector.unsent ≡ []) };

    fn run<R: Wait>(self, rt: &R) -> TaskEnd<'c, 'a, W> {
        let CollectTask {
            mut state,
            results,
            out,
        } = self;
        let written = state.collect(rt, results, out);
        TaskEnd {
            state,
            written,
            out,
        }
    }
}

/// Once `BLOCK_LEN` bytes are unsent, they are written even if more results are in the channel.
const BLOCK_LEN: usize = 65_536;

/// At most `CHANNEL_LEN` batches are in the channel. A worker that has one more waits until the caller takes one, so that
/// results don't pile up in memory if workers are faster than their caller. The caller waits for none of them while a batch is
/// there. A caller that takes no more drops its end, and then each send fails at once.
const CHANNEL_LEN: usize = 1_024;

// Ties a reference that came back to the one that was borrowed.
fn take_back<T>(lent: &mut T)
    ensures { lent.new ≡ lent.old }
{}

impl<'a> RunState<'a> {
    /// Shares the tickets among workers, takes what they send, and writes what is released.
    pub(crate) fn share<G: Gate, W: Write, R: Threads + Wait + Sync>(
        self,
        rt: &R,
        alloc: Global,
        hands: Vec<Hand>,
        gate: &G,
        out: &mut Output<W>,
    ) -> Result<RunState<'a>, RunFault>
        requires sound { out.old.stream.failed ≡ false }
        requires sent { self.collector.unsent ≡ [] }
        ensures failed { FitsFault result out.new.stream.failed }
        ensures step { MatchResult result
            (λ s. StaysInStep out.old.stream.written self.entry.collector
            out.new.stream.written s.collector)
            (λ _. StopsInStep out.old.stream.written self.entry.collector
            out.new.stream.written) }
        ensures sent { IfOk result (λ s. s.collector.unsent ≡ []) }
        ensures told { IfErr result TellsNoTicket }
    {
        let (to, from) = crossbeam_channel::bounded(alloc, CHANNEL_LEN)?;
        let bundle = self.collector.bundle();
        let question = self.collector.question();
        let task = CollectTask {
            state: self,
            results: from,
            out,
        };
        let TaskEnd {
            state,
            written,
            out,
        } = work_beside(rt, alloc, bundle, question, hands, gate, to, task);
        take_back(out);
        written?;
        Ok(state)
    }

    // The next batch, or none once the channel is closed. Everything released is written before waiting for it.
    fn next_batch<R: Wait, W: Write>(
        &mut self,
        rt: &R,
        results: &Receiver<Batch<'a>, Global>,
        out: &mut Output<W>,
    ) -> Result<Option<Batch<'a>>, Failed>
        requires sound { out.old.stream.failed ≡ false }
        ensures failed { MatchResult result (λ _. out.new.stream.failed ≡ false)
            (λ _. out.new.stream.failed ≡ true) }
        ensures step { MatchResult result
            (λ _. StaysInStep out.old.stream.written self.old.collector
            out.new.stream.written self.new.collector)
            (λ _. StopsInStep out.old.stream.written self.old.collector
            out.new.stream.written) }
        ensures sent { IfOk result (λ next. IfNone next (self.new.collector.unsent ≡ [])) }
    {
        if let Ok(batch) = results.try_recv(rt) {
            return Ok(Some(batch));
        }
        self.send(out)?;
        Ok(results.recv(rt).ok())
    }

    // Takes the results of a batch.
    fn take_batch(&mut self, batch: Batch<'a>)
        ensures { (written : Option (List ℕ)) →
            StaysInStep written self.old.collector written self.new.collector }
    {
        for done in batch {
            self.take(done);
        }
    }

    // Takes what comes and writes what it releases, until the channel is closed. After a failed write this end closes the
    // channel.
    fn collect<R: Wait, W: Write>(
        &mut self,
        rt: &R,
        results: Receiver<Batch<'a>, Global>,
        out: &mut Output<W>,
    ) -> Result<(), Failed>
        requires sound { out.old.stream.failed ≡ false }
        ensures failed { MatchResult result (λ _. out.new.stream.failed ≡ false)
            (λ _. out.new.stream.failed ≡ true) }
        ensures step { MatchResult result
            (λ _. StaysInStep out.old.stream.written self.old.collector
            out.new.stream.written self.new.collector)
            (λ _. StopsInStep out.old.stream.written self.old.collector
            out.new.stream.written) }
        ensures sent { OnOk result (self.new.collector.unsent ≡ []) }
    {
        for _ in rt.forever() {
            let Some(batch) = self.next_batch(rt, &results, out)? else {
                return Ok(());
            };
            self.take_batch(batch);
            if self.collector.unsent().len() >= BLOCK_LEN {
                self.send(out)?;
            }
        }
        unreachable!()
    }
}
