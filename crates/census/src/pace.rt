//! The time that a run still takes, by the rate at which its last patterns were finished.

/// The rate is that of at least this many patterns, once this many are finished.
const MANY: u64 = 16;

/// The rate is that over at least this many milliseconds, once the run has taken this long.
const SPAN: u64 = 2_000;

/// There is no rate while fewer patterns are finished.
const FEW: u64 = 3;

/// The number of patterns that were finished at a millisecond.
#[derive(Clone, Copy, Drop)]
struct Mark {
    time: u64,
    finished: u64,
}

/// Two marks of a run. Its rate is that since the earlier one.
#[derive(Drop)]
pub(crate) struct Pace {
    earlier: Mark,
    later: Mark,
}

impl Pace {
    /// The pace of a run that begins at this millisecond.
    pub(crate) fn new(time: u64) -> Pace {
        let begin = Mark { time, finished: 0 };
        Pace {
            earlier: begin,
            later: begin,
        }
    }

    /// The number of seconds that are left of a run of `patterns` patterns, of which `finished` are finished now. `None` while
    /// few are finished, and once all are.
    pub(crate) fn left(&mut self, time: u64, finished: u64, patterns: u64) -> Option<u64> {
        let since = finished.saturating_sub(self.later.finished);
        if since >= MANY && time.saturating_sub(self.later.time) >= SPAN {
            self.earlier = self.later;
            self.later = Mark { time, finished };
        }
        let done = finished.saturating_sub(self.earlier.finished);
        if done < FEW || finished >= patterns {
            return None;
        }
        let took = time.saturating_sub(self.earlier.time);
        let left = took.saturating_mul(patterns - finished) / done;
        Some(left.div_ceil(1_000))
    }
}
