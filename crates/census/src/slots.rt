//! The patterns that the workers of a run work on.
use crate::line::{Line, write_pattern};
use arrayvec::ArrayVec;
use std::array;
use std::hint::spin_loop;
use std::sync::Mutex;
use std::sync::atomic::{AtomicU64, Ordering};

/// The greatest number of workers of a run.
const WORKERS: usize = 16;

/// The greatest number of bytes that are kept of a name: its end, which is more than is shown.
const ROOM: usize = 64;

/// The number of times that a worker tries to note a name.
const TRIES: u32 = 1024;

/// A name, or its end.
type Name = ArrayVec<u8, ROOM>;

/// The pattern that a worker works on.
#[derive(Drop)]
struct Slot {
    /// The millisecond in which the work began, or the greatest number where there is none.
    since: AtomicU64,
    generation: AtomicU64,
    /// It is locked only while it is written or shown.
    name: Mutex<Name>,
}

// The last `most` bytes, or all where there are fewer.
fn end_of(bytes: &[u8], most: usize) -> &[u8] {
    &bytes[bytes.len().saturating_sub(most)..]
}

// Sets the name of a pattern in a collection.
fn set_name(kept: &mut Name, collection: &[u8], name: &[u8]) {
    kept.clear();
    let name = end_of(name, ROOM - 1);
    let room = (ROOM - 1).saturating_sub(name.len());
    let _ = kept.try_extend_from_slice(end_of(collection, room));
    let _ = kept.try_push(b'/');
    let _ = kept.try_extend_from_slice(name);
}

impl Slot {
    fn new() -> Slot {
        Slot {
            since: AtomicU64::new(u64::MAX),
            generation: AtomicU64::new(0),
            name: Mutex::new(Name::new()),
        }
    }

    // Notes that the work begins. Where the name can't be noted, since it is being shown, the work isn't shown.
    fn start(&self, time: u64, collection: &[u8], name: &[u8]) {
        for _ in 0..TRIES {
            if let Some(mut kept) = self.name.try_lock() {
                set_name(&mut *kept, collection, name);
                self.generation.store(0, Ordering::SeqCst);
                self.since.store(time, Ordering::SeqCst);
                return;
            }
            spin_loop();
        }
        self.since.store(u64::MAX, Ordering::SeqCst);
    }

    // Writes the work that began at `since`, unless it has ended or other work begins.
    fn write(&self, line: &mut Line, since: u64) {
        if let Some(kept) = self.name.try_lock() {
            if self.since.load(Ordering::SeqCst) == since {
                let generation = self.generation.load(Ordering::SeqCst);
                let _ = write_pattern(line, kept.as_slice(), generation);
            }
        }
    }
}

/// The pattern that each worker works on. Those of workers beyond the first `WORKERS` are not shown.
#[derive(Drop)]
pub(crate) struct Slots {
    slots: [Slot; WORKERS],
}

impl Slots {
    /// Slots in which no worker works.
    pub(crate) fn new() -> Slots {
        Slots {
            slots: array::from_fn(|_| Slot::new()),
        }
    }

    /// Notes that a worker begins a pattern of a collection in this millisecond.
    pub(crate) fn start(&self, worker: u32, time: u64, collection: &[u8], name: &[u8]) {
        if let Some(slot) = self.slots.get(worker as usize) {
            slot.start(time, collection, name);
        }
    }

    /// Notes that a worker has reached this generation.
    pub(crate) fn advance(&self, worker: u32, generation: u32) {
        if let Some(slot) = self.slots.get(worker as usize) {
            slot.generation
                .store(u64::from(generation), Ordering::SeqCst);
        }
    }

    /// Notes that a worker has finished.
    pub(crate) fn finish(&self, worker: u32) {
        if let Some(slot) = self.slots.get(worker as usize) {
            slot.since.store(u64::MAX, Ordering::SeqCst);
        }
    }

    /// Adds to a line the pattern that has been worked on longest, and the generation that it has reached, if there is one.
    pub(crate) fn write_longest(&self, line: &mut Line) {
        let mut first = u64::MAX;
        let mut longest = None;
        for slot in &self.slots {
            let since = slot.since.load(Ordering::SeqCst);
            if since < first {
                first = since;
                longest = Some(slot);
            }
        }
        if let Some(slot) = longest {
            slot.write(line, first);
        }
    }
}
