//! The line at a terminal that shows the progress of a run, or of a pattern.
use crate::line::{Line, write_head};
use crate::pace::Pace;
use crate::short_name::{LONGEST, ShortName};
use crate::slots::Slots;
use std::io::Eprint;
use std::sync::Mutex;
use std::sync::atomic::{AtomicBool, AtomicU64, Ordering};
use std::time::Clock;

/// The progress of a run, or of a pattern, is shown once it has taken this many milliseconds.
const PATIENCE: u64 = 500;

/// The progress is shown again after this many milliseconds, so at most four times a second.
const PAUSE: u64 = 250;

/// The clock is read once in this many generations.
const STRIDE: u32 = 64;

/// Standard error, where it is a terminal: its last line shows the progress of a run, or of a pattern, and is wiped before
/// anything else is written.
#[derive(Drop)]
pub struct Screen<'a, R> {
    rt: &'a R,
    is_terminal: bool,
    /// True where the last line shows the progress of a run or of a pattern.
    stands: AtomicBool,
    /// The number of patterns of the run, or 0 where none has begun.
    patterns: AtomicU64,
    /// The number of them that workers have finished.
    finished: AtomicU64,
    /// The millisecond from which on progress may be shown again, or the greatest number where there is none.
    next: AtomicU64,
    /// The pace of the run. It is locked only while it is read or written.
    pace: Mutex<Pace>,
    /// The patterns that the workers of the run work on.
    slots: Slots,
}

impl<'a, R: Clock + Eprint> Screen<'a, R> {
    /// A screen on which nothing is shown. Where standard error is not a terminal, nothing is ever shown on it.
    pub fn new(rt: &'a R, is_terminal: bool) -> Self {
        Screen {
            rt,
            is_terminal,
            stands: AtomicBool::new(false),
            patterns: AtomicU64::new(0),
            finished: AtomicU64::new(0),
            next: AtomicU64::new(u64::MAX),
            pace: Mutex::new(Pace::new(0)),
            slots: Slots::new(),
        }
    }

    /// Wipes the line that shows progress, if it is there.
    pub fn wipe(&self) {
        if self.stands.swap(false, Ordering::SeqCst) {
            let _ = eprint!(self.rt; "\r\x1b[K");
        }
    }

    /// Says that standard input is read, where standard error is a terminal.
    pub fn tell_reading(&self) {
        if self.is_terminal {
            let _ = eprint!(self.rt; "census: reading standard input\n");
        }
    }

    // Milliseconds on a clock that never goes back.
    fn now(&self) -> u64 {
        match self.rt.monotonic() {
            Ok(time) => time.as_millis().min(u64::MAX as u128) as u64,
            Err(_) => 0,
        }
    }

    // True where a run has begun whose progress is shown.
    fn is_running(&self) -> bool {
        self.next.load(Ordering::SeqCst) < u64::MAX
    }

    /// Notes that a run of `patterns` patterns is about to begin.
    pub(crate) fn begin(&self, patterns: u64) {
        if !self.is_terminal {
            return;
        }
        let now = self.now();
        self.patterns.store(patterns, Ordering::SeqCst);
        self.finished.store(0, Ordering::SeqCst);
        if let Some(mut pace) = self.pace.try_lock() {
            *pace = Pace::new(now);
        }
        self.next
            .store(now.saturating_add(PATIENCE), Ordering::SeqCst);
    }

    /// Notes that a worker begins a pattern now.
    pub(crate) fn start(&self, worker: u32, collection: &[u8], name: &[u8]) {
        if self.is_running() {
            let now = self.now();
            self.slots.start(worker, now, collection, name);
            self.tell(now);
        }
    }

    /// Notes that a worker has reached a generation of its pattern.
    pub(crate) fn advance(&self, worker: u32, generation: u32) {
        if self.is_running() {
            self.slots.advance(worker, generation);
            self.tell(self.now());
        }
    }

    /// Notes that a worker has finished its pattern.
    pub(crate) fn finish(&self, worker: u32) {
        if self.is_running() {
            self.slots.finish(worker);
            self.finished.fetch_add(1, Ordering::SeqCst);
        }
    }

    /// Notes that the run has ended, and wipes its progress.
    pub(crate) fn end(&self) {
        self.next.store(u64::MAX, Ordering::SeqCst);
        self.wipe();
    }

    // True where progress is to be shown now. Then it counts as shown.
    fn is_due(&self, next: u64, now: u64) -> bool {
        if now < next {
            return false;
        }
        let later = now.saturating_add(PAUSE);
        let is_first = self
            .next
            .compare_exchange(next, later, Ordering::SeqCst, Ordering::SeqCst)
            .is_ok();
        if is_first {
            self.stands.store(true, Ordering::SeqCst);
        }
        is_first
    }

    // The number of seconds that are left of the run, if it is known.
    fn left(&self, now: u64, finished: u64, patterns: u64) -> Option<u64> {
        let mut pace = self.pace.try_lock()?;
        pace.left(now, finished, patterns)
    }

    // Shows the progress of the run, if it is due.
    fn tell(&self, now: u64) {
        let next = self.next.load(Ordering::SeqCst);
        if !self.is_due(next, now) {
            return;
        }
        let finished = self.finished.load(Ordering::SeqCst);
        let patterns = self.patterns.load(Ordering::SeqCst);
        let seconds = self.left(now, finished, patterns);
        let mut line = Line::new();
        let _ = write_head(&mut line, finished, patterns, seconds);
        self.slots.write_longest(&mut line);
        let _ = eprint!(self.rt; "\r{line}\x1b[K");
    }

    /// Notes that the pattern of a file has reached generation `generation` of `last`.
    pub(crate) fn reach(&self, name: &[u8], generation: u32, last: u32) {
        if !self.is_terminal || generation % STRIDE != 0 {
            return;
        }
        let next = self.next.load(Ordering::SeqCst);
        let now = self.now();
        if next == u64::MAX {
            let due = now.saturating_add(PATIENCE);
            self.next.store(due, Ordering::SeqCst);
        } else if self.is_due(next, now) {
            let name = ShortName {
                name,
                columns: LONGEST,
            };
            let _ = eprint!(self.rt; "\rcensus: {name}, generation {generation} of {last}\x1b[K");
        }
    }
}
