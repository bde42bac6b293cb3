//! The counts of a run.
ghost use Rattle.std.specs.Prelude.{◌≡◌, ◌<◌, ◌^◌};
ghost use Rattle.census_crew.specs.Tallying.{tally_with, no_tally};

use census_format::class_of;
use census_rows::Class;
use life_answer::Answer;

/// The counts of a run.
#[derive(Clone, Copy, Debug, PartialEq, Eq)]
pub struct Tally {
    /// All patterns.
    pub patterns: u64,
    /// The patterns with an `ok` or an `ash` line, which recur, or have fallen apart, within the bound.
    pub resolved: u64,
    /// The patterns with a `none` line, which do not.
    pub unresolved: u64,
    /// The patterns with a `bad` line, which are lost or whose texts have a fault.
    pub refused: u64,
    /// The results whose tickets were taken before.
    pub doubles: u64,
    /// The results of another bundle or question.
    pub strangers: u64,
    /// The tickets that the caller worked itself.
    pub caught_up: u64,
}

impl Tally {
    /// The tally before anything is counted.
    pub(crate) fn new() -> Tally
        ensures { result ≡ no_tally }
    {
        Tally {
            patterns: 0,
            resolved: 0,
            unresolved: 0,
            refused: 0,
            doubles: 0,
            strangers: 0,
            caught_up: 0,
        }
    }

    /// The tally with one more pattern, which has this answer.
    pub(crate) fn with(self, answer: &Answer) -> Tally
        requires patterns { self.patterns < 2 ^ 63 }
        requires resolved { self.resolved < 2 ^ 63 }
        requires unresolved { self.unresolved < 2 ^ 63 }
        requires refused { self.refused < 2 ^ 63 }
        ensures { result ≡ tally_with self answer.now }
    {
        let mut counted = self;
        counted.patterns += 1;
        match class_of(answer) {
            Class::Resolved => counted.resolved += 1,
            Class::Unresolved => counted.unresolved += 1,
            Class::Refused => counted.refused += 1,
        }
        counted
    }
}
