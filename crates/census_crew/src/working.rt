//! Workers, and the caller's work beside them.
ghost use Rattle.std.specs.Prelude.{◌≡◌, ◌≤◌};
ghost use Rattle.life_answer.specs.Questions.{IsAnswered};

use crate::answering;
use crate::gate::{Gate, Passed, pass};
use crate::handles::Hand;
use census_book::Done;
use census_bundle::{Bundle, Ticket};
use crossbeam_channel::Sender;
use life_answer::{Answer, Outcome, Question};
use life_plane::Observer;
use std::alloc::Global;
use std::hint::spin_loop;
use std::sync::{Mutex, Wait};
use std::thread::Threads;
use std::{mem, thread};

/// The caller's task beside its workers. It is passed by value, and what it borrowed comes back.
pub(crate) trait Task: Drop {
    type Output;

    ghost can_run: { Self → Type 0 };

    ghost run_gives: { Self → Self.Output → Type 0 };

    fn run<R: Wait>(self, rt: &R) -> Self::Output
        requires { can_run self }
        ensures { run_gives self result };
}

/// Results that a worker sends together.
pub(crate) type Batch<'a> = Vec<Done<'a>>;

/// At most `BATCH_LEN` results are sent together by a worker.
const BATCH_LEN: usize = 64;

/// A pattern whose onset and period are at most this was quick work.
const QUICK: u32 = 64;

// True if this was found by quick work. The next result of a collection is then likely to be found like this too.
fn was_quick(answer: &Answer) -> bool {
    match answer {
        Answer::Found { finding, .. } => match &finding.outcome {
            Outcome::Recurs { onset, period, .. } => *onset <= QUICK && *period <= QUICK,
            _ => false,
        },
        Answer::Refused(_) => true,
    }
}

/// A generation is reported to the gate once in this many.
const STRIDE: u32 = 64;

/// A gate, and the number of the worker that reports to it.
#[derive(Drop)]
struct Reporter<'g, G> {
    gate: &'g G,
    worker: u32,
}

impl<'g, G: Gate> Observer for Reporter<'g, G> {
    fn reached(&self, generation: u32) {
        if generation % STRIDE == 0 {
            self.gate.advanced(self.worker, generation);
        }
    }
}

// Reports that the worker works the pattern of a ticket from now on.
fn report_start<G: Gate>(reporter: &Reporter<'_, G>, bundle: &Bundle, ticket: Ticket) {
    let at = (ticket.folder as usize).wrapping_sub(1);
    if let (Some(folder), Some(entry)) = (bundle.folders().get(at), bundle.entry(ticket)) {
        reporter.gate.started(
            reporter.worker,
            folder.name.as_slice(),
            entry.name.as_slice(),
        );
    }
}

// An empty batch, with room if there is memory for it.
fn new_batch<'a>(alloc: Global) -> Batch<'a> {
    match Vec::with_capacity(alloc, BATCH_LEN) {
        Ok(batch) => batch,
        Err(_) => Vec::new(alloc),
    }
}

/// The number of times that a worker checks whether it may begin, which takes some tenths of a millisecond in all.
const LOOKS: u32 = 4096;

// The first batch of a worker. It makes the batch once all workers are started, and while no other makes its own. The first
// growth in a thread maps memory for its later ones, as does the start of a thread, and the system lets in only one thread at a
// time there. Threads that meet there fall asleep, and may be woken on one processor and share it while another has nothing to
// do. A worker that has checked `LOOKS` times begins anyway.
fn first_batch<'a>(alloc: Global, beginning: &Mutex<()>) -> Batch<'a> {
    for _ in 0..LOOKS {
        if let Some(turn) = beginning.try_lock() {
            let batch = new_batch(alloc);
            drop(turn);
            return batch;
        }
        spin_loop();
    }
    new_batch(alloc)
}

// Sends a batch and empties it. Returns true if anybody is there to take it. If the channel is full, it waits until a batch is
// taken.
fn send_batch<'a, R: Wait>(
    rt: &R,
    alloc: Global,
    batch: &mut Batch<'a>,
    results: &Sender<Batch<'a>, Global>,
) -> bool {
    let full = mem::replace(batch, new_batch(alloc));
    results.send(rt, full).is_ok()
}

// Puts a result into a batch. Returns true if it may wait there: it is kept, and was quick work.
fn put_in<'a>(batch: &mut Batch<'a>, done: Done<'a>) -> bool {
    let waits = was_quick(done.answer());
    batch.push(done).is_ok() && waits
}

// Works a pattern whose worker passed the gate, if its first generations are enough and results wait. If none waits, the
// pattern may take as long as it needs. The result goes into the batch. Also `None` when out of memory.
fn work_soon<'a, P: Drop>(
    alloc: Global,
    bundle: &'a Bundle,
    question: Question,
    passed: &Passed<P>,
    batch: &mut Batch<'a>,
) -> Option<bool>
    requires { IsAnswered question }
{
    if batch.is_empty() {
        return None;
    }
    let entry = bundle.entry(passed.ticket())?;
    match answering::work_soon(alloc, passed.ticket(), entry, question) {
        Ok(Some(done)) => Some(put_in(batch, done)),
        Ok(None) | Err(_) => None,
    }
}

// Works a pattern whose worker passed the gate, however long it takes. The result goes into the batch. `None` when out of
// memory.
fn work_long<'a, W: Observer, P: Drop>(
    alloc: Global,
    observer: &W,
    bundle: &'a Bundle,
    question: Question,
    passed: &Passed<P>,
    batch: &mut Batch<'a>,
) -> Option<bool>
    requires { IsAnswered question }
{
    let entry = bundle.entry(passed.ticket())?;
    match answering::work_observed(alloc, observer, passed.ticket(), entry, question) {
        Ok(done) => Some(put_in(batch, done)),
        Err(_) => None,
    }
}

// Takes tickets until none is left, works them, and sends the results: those of quick work several together, any other at once.
// No result waits while a pattern goes beyond its first 256 generations. These are looked at twice if results waited. A ticket
// that ran out of memory is left to the caller.
fn work<'a, G: Gate, R: Wait>(
    rt: &R,
    alloc: Global,
    bundle: &'a Bundle,
    question: Question,
    mut hand: Hand,
    reporter: Reporter<'_, G>,
    beginning: &Mutex<()>,
    results: Sender<Batch<'a>, Global>,
)
    requires { IsAnswered question }
{
    let mut batch = first_batch(alloc, beginning);
    for _ in rt.forever() {
        let Some(ticket) = hand.take(rt) else {
            break;
        };
        let passed = pass(reporter.gate, ticket);
        report_start(&reporter, bundle, ticket);
        let mut worked = work_soon(alloc, bundle, question, &passed, &mut batch);
        if worked.is_none() {
            if !batch.is_empty() && !send_batch(rt, alloc, &mut batch, &results) {
                return;
            }
            worked = work_long(alloc, &reporter, bundle, question, &passed, &mut batch);
        }
        reporter.gate.finished(reporter.worker);
        let Some(waits) = worked else {
            continue;
        };
        if waits && batch.len() < BATCH_LEN {
            continue;
        }
        if !send_batch(rt, alloc, &mut batch, &results) {
            return;
        }
    }
    let _ = results.send(rt, batch);
}

/// Gives each hand to a worker, and runs the task beside them. The workers' results come through the channel, which closes when
/// the last of them has ended. It returns when they all have. If no more workers can be started, those that were started work
/// alone, and if there are none, only the task runs.
pub(crate) fn work_beside<'a, G: Gate, R: Threads + Wait + Sync, S: Task>(
    rt: &R,
    alloc: Global,
    bundle: &'a Bundle,
    question: Question,
    hands: Vec<Hand>,
    gate: &G,
    results: Sender<Batch<'a>, Global>,
    task: S,
) -> S::Output
    requires question { IsAnswered question }
    requires task { S.can_run task }
    ensures { S.run_gives task result }
{
    let lock = Mutex::new(());
    let beginning = &lock;
    thread::scope(
        thread::scope_env(),
        rt,
        move |scope| -> S::Output
            requires { IsAnswered question × S.can_run task }
            ensures { S.run_gives task result }
        {
            // No worker begins before this is dropped, unless it gave up waiting.
            let turn = beginning.try_lock();
            let mut worker: u32 = 0;
            for hand in hands {
                let reporter = Reporter { gate, worker };
                worker = worker.saturating_add(1);
                let Ok(mine) = results.clone() else {
                    break;
                };
                let one = move ||
                    requires { IsAnswered question }
                { work(rt, alloc, bundle, question, hand, reporter, beginning, mine) };
                if scope.spawn(one).is_err() {
                    break;
                }
            }
            drop(turn);
            // The channel closes only once no sender is left.
            drop(results);
            task.run(rt)
        },
    )
}
