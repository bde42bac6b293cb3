//! The moments at which it is worth checking whether a pattern has fallen apart.
ghost use Rattle.std.specs.Prelude.{◌+◌, ◌≤◌};

/// The population of every `STRIDE`-th generation is counted. Most patterns that recur have one population in all of these.
pub const STRIDE: u32 = 4;

/// The number of populations that are kept.
const KEPT: usize = 128;

/// The number of consecutive populations that must repeat.
const SPELL: u32 = 12;

/// The greatest period at which repeating populations are noticed, in strides.
const LONGEST: u32 = 60;

/// The moment (an age in strides) at which fewer populations decide, since the pattern may have been ash from the start.
const EARLY: u32 = 3;

/// The age from which looks are due.
const FIRST_DUE: u32 = 4096;

/// After this many looks that found nothing, the next ones wait longer.
const PATIENT: usize = 5;

/// The populations at the last `KEPT` moments, the ages from which a look is due and from which one is allowed, and one more
/// than the number of looks that were due.
#[derive(Clone, Copy)]
pub struct Pace {
    counts: [u64; KEPT],
    due: u32,
    free: u32,
    looks: usize,
}

impl Pace {
    /// The pace before the first generation.
    pub fn new() -> Pace {
        Pace {
            counts: [0; KEPT],
            due: FIRST_DUE,
            free: 0,
            looks: 1,
        }
    }

    /// The population at a moment.
    fn count_at(&self, moment: u32) -> u64 {
        self.counts[moment as usize % KEPT]
    }

    /// True if the populations at the last `spell` moments up to this one repeat those of `period` moments before.
    fn repeats(&self, moment: u32, period: u32, spell: u32) -> bool
        requires { period + spell ≤ moment }
    {
        for back in 0..spell {
            if self.count_at(moment - back) != self.count_at(moment - back - period) {
                return false;
            }
        }
        true
    }

    /// True if the populations up to this moment have repeated for a while.
    fn is_settled(&self, moment: u32) -> bool {
        if moment == EARLY {
            return self.repeats(moment, 1, EARLY - 1);
        }
        if moment <= SPELL {
            return false;
        }
        for period in 1..=LONGEST.min(moment - SPELL) {
            if self.repeats(moment, period, SPELL) {
                return true;
            }
        }
        false
    }

    /// Records the population at this age, if it is one of those that are kept.
    pub fn count(&mut self, age: u32, population: u64) {
        if age % STRIDE == 0 {
            self.counts[(age / STRIDE) as usize % KEPT] = population;
        }
    }

    /// The part of the wait after a look at this age that grows with the age.
    fn wait(&self, age: u32) -> u32 {
        if self.looks > PATIENT {
            return age / 2;
        }
        age / 8
    }

    /// True if the generation of this age is to be looked at. Its population has been recorded already if it is one to be kept.
    /// Looks are due each time that the age has doubled, from 4,096 on, and also where populations repeat, if the last look was
    /// some time ago.
    pub fn is_due(&mut self, age: u32) -> bool {
        if age % STRIDE != 0 {
            return false;
        }
        let moment = age / STRIDE;
        if age < self.due && (age < self.free || !self.is_settled(moment)) {
            return false;
        }
        self.due = age.saturating_mul(2).max(FIRST_DUE);
        self.free = age
            .saturating_add(self.wait(age))
            .saturating_add(SPELL * STRIDE);
        self.looks = self.looks.saturating_add(1);
        true
    }

    /// One more than the number of looks that were due so far.
    pub fn looks(&self) -> usize {
        self.looks
    }
}
