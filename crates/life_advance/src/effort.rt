//! The division of work between steps and leaps. It only determines what is tried next: no answer depends on it.
//!
//! Work is counted in half bands of eight rows of 32 cells, some 12 ns each. Steps are made until leaps have paid off:
//! before each trial of leaps the work of all steps, done and to come, is estimated. Trials may take a quarter of it in
//! all, and no more than twice the work done by steps. So if steps are better, little is lost, and if leaps are much
//! better, one of the first trials has enough. A trial that is given up is resumed from where it stopped, as long as
//! its next leap lands beyond the steps.
ghost use Rattle.std.specs.Prelude.{◌≤◌};

/// The work of steps before leaps are first tried.
const FIRST_TRIAL: u64 = 80_000;

/// The work of a band of eight rows of a tile.
const BAND_WORK: u64 = 3;

/// The work of a step apart from its bands.
const STEP_WORK: u64 = 2;

/// The work of putting a cell into squares. Putting it back into tiles takes as much again.
const CELL_WORK: u64 = 6;

/// The number of steps for which the active bands are counted once.
pub const SAMPLE: u32 = 16;

/// The greatest power of two that is to divide the rest before leaps are tried.
const LONGEST_WAIT: u32 = 4_096;

/// The work done by steps and leaps.
#[derive(Clone, Copy)]
pub struct Effort {
    /// The work of steps.
    steps: u64,
    /// The work of trials that were given up.
    lost: u64,
    /// The work of steps at which leaps are tried next.
    next_trial: u64,
    /// The work of a step when it was last measured.
    rate: u64,
}

/// A trial of leaps at an age.
#[derive(Clone, Copy)]
pub struct Trial {
    age: u32,
    /// The work that it may do, in bands of leaves.
    pub work: u64,
    /// The work of a step.
    rate: u64,
    /// The work of changing over to squares, and of changing back.
    over: u64,
    back: u64,
}

impl Trial {
    /// The work that a trial may still do after it has done `worked` and reached an age. It may also use what the steps
    /// until then would have taken.
    pub fn left(&self, worked: u64, age: u32) -> u64 {
        let saved = self.saved(age) / 2;
        self.work.saturating_add(saved).saturating_sub(worked)
    }

    /// True where it may do at least half as much work as changing over costs.
    pub fn is_worthwhile(&self) -> bool {
        self.work > self.over.saturating_add(self.back) / 4
    }

    /// The work of the steps until an age that it has reached.
    fn saved(&self, age: u32) -> u64 {
        let generations = age.saturating_sub(self.age);
        self.rate.saturating_mul(u64::from(generations))
    }
}

impl Effort {
    /// The effort before any work is done.
    pub fn new() -> Effort {
        Effort {
            steps: 0,
            lost: 0,
            next_trial: FIRST_TRIAL,
            rate: 0,
        }
    }

    /// Counts the steps until the next sample, each of which computes `bands` bands.
    pub fn add_steps(&mut self, bands: u64) {
        self.rate = bands.saturating_mul(BAND_WORK).saturating_add(STEP_WORK);
        let work = self.rate.saturating_mul(u64::from(SAMPLE));
        self.steps = self.steps.saturating_add(work);
    }

    /// True where leaps are to be tried at an age, with `left` generations to come.
    pub fn is_trial_due(&self, age: u32, left: u32) -> bool {
        self.next_trial <= self.steps && left % wait_of(age) == 0
    }

    /// A trial at an age, with `left` generations to come and `cells` cells. If it `is_begun`, its squares exist
    /// already.
    pub fn trial(&self, age: u32, left: u32, cells: u64, is_begun: bool) -> Trial {
        let to_come = self.rate.saturating_mul(u64::from(left));
        let part = self.steps.saturating_add(to_come) / 4;
        let back = cells.saturating_mul(CELL_WORK);
        let over = if is_begun { 0 } else { back };
        let lost = self.lost.saturating_add(over).saturating_add(back);
        Trial {
            age,
            work: part.min(self.steps.saturating_mul(2)).saturating_sub(lost) / 2,
            rate: self.rate,
            over,
            back,
        }
    }

    /// Sets the work at which the next trial is due.
    pub fn put_off(&mut self) {
        self.next_trial = self.steps.saturating_add(self.steps / 2).max(FIRST_TRIAL);
    }

    /// Counts a trial that has computed `bands` bands of leaves and reached an age.
    pub fn add_trial(&mut self, trial: &Trial, bands: u64, age: u32) {
        let back = if age > trial.age { trial.back } else { 0 };
        let spent = bands
            .saturating_mul(2)
            .saturating_add(trial.over)
            .saturating_add(back);
        self.lost = self
            .lost
            .saturating_add(spent)
            .saturating_sub(trial.saved(age));
    }
}

/// A power of two that is to divide the rest before leaps are tried at an age, so that the first leaps are not short.
fn wait_of(age: u32) -> u32
    ensures { 1 ≤ result }
{
    let mut wait = 1u32;
    'doubled: for _ in 0..LONGEST_WAIT {
        if LONGEST_WAIT <= wait || age / 16 < wait {
            return wait;
        }
        wait *= 2;
    }
    wait
}
