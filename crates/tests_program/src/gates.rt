//! A gate that holds workers until others have arrived.

use crate::bundles::{DEMO, DEMO_REPORT, SETTLES, demo_tally};
use crate::program::called_through;
use census_bundle::{AddFault, Bundle, Ticket, read_bundle};
use census_crew::{Gate, run, run_bytes};
use life_answer::Question;
use std::alloc::Global;
use std::sync::atomic::{AtomicU64, Ordering};
use std::test::Fail;
use watched::{Output, Streams};

// The number of times that a worker checks whether the others have arrived.
const TURNS: u64 = 1_000_000_000;

/// Holds each worker until `awaited` tickets have entered, unless it gives up. It notes the number of patterns of the last run,
/// and the numbers of runs that have begun and ended.
#[derive(Drop)]
pub(crate) struct Crowd {
    awaited: u64,
    entered: AtomicU64,
    gave_up: AtomicU64,
    patterns: u64,
    begun: u64,
    ended: u64,
}

impl Crowd {
    pub(crate) fn of(awaited: u64) -> Crowd {
        Crowd {
            awaited,
            entered: AtomicU64::new(0),
            gave_up: AtomicU64::new(0),
            patterns: 0,
            begun: 0,
            ended: 0,
        }
    }

    // True where this many tickets have entered, and no worker has given up waiting.
    pub(crate) fn has_met(&self, entered: u64) -> bool {
        self.entered.load(Ordering::SeqCst) == entered && self.gave_up.load(Ordering::SeqCst) == 0
    }

    // The number of patterns of the last run, and the numbers of runs that have begun and ended.
    fn runs(&self) -> (u64, u64, u64) {
        (self.patterns, self.begun, self.ended)
    }
}

impl Gate for Crowd {
    type Pass = ();

    ghost admits = { λ _ _. Unit {0} };

    fn begin(&mut self, patterns: u64) {
        self.patterns = patterns;
        self.begun = self.begun.saturating_add(1);
    }

    fn end(&mut self) {
        self.ended = self.ended.saturating_add(1);
    }

    fn enter(&self, _ticket: Ticket) {
        self.entered.fetch_add(1, Ordering::SeqCst);
        for _ in 0..TURNS {
            if self.entered.load(Ordering::SeqCst) >= self.awaited {
                return;
            }
        }
        self.gave_up.store(1, Ordering::SeqCst);
    }
}

// A folder of `count` blinkers.
fn blinkers(alloc: Global, count: u32) -> Result<Bundle, AddFault> {
    let mut bundle = Bundle::empty(alloc);
    bundle.add_folder(b"blinkers")?;
    for _ in 0..count {
        bundle.add_entry(b"blinker", b"x = 3, y = 1\n3o!")?;
    }
    Ok(bundle)
}

#[test]
fn as_many_workers_as_were_asked_for_meet_at_the_gate(rt: HostRuntime) -> Result<(), Fail> {
    let bundle = blinkers(rt.alloc(), 16)?;
    for workers in 1..17 {
        let mut gate = Crowd::of(u64::from(workers));
        let mut out = Output::new(Vec::new(rt.alloc()));
        let tally = run(
            &rt,
            rt.alloc(),
            &bundle,
            SETTLES,
            workers,
            &mut gate,
            &mut out,
        )?;
        assert!(rt; tally.resolved == 16 && tally.caught_up == 0 && gate.has_met(16));
    }
    Ok(())
}

#[test]
fn a_text_is_worked_by_as_many_as_were_asked_for(rt: HostRuntime) -> Result<(), Fail> {
    for workers in [1, 2, 5, 16] {
        let mut gate = Crowd::of(u64::from(workers.min(5)));
        let mut streams = Streams::new(DEMO, Vec::new(rt.alloc()), Vec::new(rt.alloc()));
        let tally = run_bytes(&rt, rt.alloc(), SETTLES, workers, &mut gate, &mut streams)?;
        let (_, report, _) = streams.into_inner();
        assert!(rt; tally == demo_tally(0) && report.as_slice() == DEMO_REPORT);
        assert!(rt; gate.has_met(5) && gate.runs() == (5, 1, 1));
    }
    Ok(())
}

#[test]
fn as_many_workers_as_the_words_say_meet_at_the_gate(rt: HostRuntime) {
    const CALLS: &[(&[&str], u64, (u64, u64, u64))] = &[
        (&["run", "-b", "50", "-w", "2"], 2, (5, 1, 1)),
        (&["run", "--workers", "5", "--bound", "50"], 5, (5, 1, 1)),
        (&["run", "--bound", "50"], 4, (5, 1, 1)),
        (&["run", "--no-progress", "-b50"], 4, (0, 0, 0)),
    ];
    for (words, awaited, runs) in CALLS {
        let mut gate = Crowd::of(*awaited);
        let (status, output, errors) = called_through(
            &rt,
            rt.alloc(),
            words,
            &mut gate,
            (DEMO, Vec::new(rt.alloc()), Vec::new(rt.alloc())),
            false,
        );
        assert!(rt; status == 0 && gate.has_met(5) && gate.runs() == *runs);
        assert!(rt; output.as_slice() == DEMO_REPORT && errors.is_empty());
    }
}

// A block, the pi-heptomino, which settles at generation 173, and another block.
const LONG_AMONG_SHORT: &[u8] = b"@folder mixed
@file a
x = 2, y = 2
2o$2o!
@file b
x = 3, y = 3
3o$obo$obo!
@file c
x = 2, y = 2
2o$2o!
";

#[test]
fn one_worker_works_what_is_not_soon_done(rt: HostRuntime) -> Result<(), Fail> {
    let bundle = read_bundle(rt.alloc(), LONG_AMONG_SHORT)?;
    let question = Question::Settles {
        bound: 1_000,
        cells: None,
    };
    let mut gate = Crowd::of(1);
    let mut out = Output::new(Vec::new(rt.alloc()));
    let tally = run(&rt, rt.alloc(), &bundle, question, 1, &mut gate, &mut out)?;
    assert!(rt; tally.resolved == 3 && tally.caught_up == 0);
    Ok(())
}

// The name of that collection.
const MIXED: &[u8] = b"mixed";

// Notes the progress that at most two workers report about the patterns of that collection.
#[derive(Drop)]
struct Reports {
    started: AtomicU64,
    finished: AtomicU64,
    /// The sum of the generations.
    generations: AtomicU64,
}

impl Gate for Reports {
    type Pass = ();

    ghost admits = { λ _ _. Unit {0} };

    fn begin(&mut self, _patterns: u64) {}

    fn enter(&self, _ticket: Ticket) {}

    fn end(&mut self) {}

    fn started(&self, worker: u32, collection: &[u8], name: &[u8]) {
        if worker < 2 && collection == MIXED && name.len() == 1 {
            self.started.fetch_add(1, Ordering::SeqCst);
        }
    }

    fn advanced(&self, worker: u32, generation: u32) {
        if worker < 2 && generation % 64 == 0 {
            self.generations
                .fetch_add(u64::from(generation), Ordering::SeqCst);
        }
    }

    fn finished(&self, worker: u32) {
        if worker < 2 {
            self.finished.fetch_add(1, Ordering::SeqCst);
        }
    }
}

#[test]
fn workers_report_how_far_their_patterns_are(rt: HostRuntime) -> Result<(), Fail> {
    let bundle = read_bundle(rt.alloc(), LONG_AMONG_SHORT)?;
    let question = Question::Objects {
        bound: 1_000,
        cells: None,
        near: false,
        horizon: 100,
    };
    for workers in [1, 2] {
        let mut gate = Reports {
            started: AtomicU64::new(0),
            finished: AtomicU64::new(0),
            generations: AtomicU64::new(0),
        };
        let mut out = Output::new(Vec::new(rt.alloc()));
        run(
            &rt,
            rt.alloc(),
            &bundle,
            question,
            workers,
            &mut gate,
            &mut out,
        )?;
        assert!(rt; gate.started.load(Ordering::SeqCst) == 3);
        assert!(rt; gate.finished.load(Ordering::SeqCst) == 3);
        assert!(rt; gate.generations.load(Ordering::SeqCst) >= 64 + 128);
    }
    Ok(())
}
