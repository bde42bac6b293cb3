//! Tracks, as contracts and callers see them.
ghost use Rattle.std.specs.Prelude.{◌≡◌, length};
ghost use Rattle.life_growth.specs.Engines.Tracks.{core_along};
ghost use Rattle.life_tracks.specs.Tracks.{way_of};

use life_cells::{CellList, corner};
use life_plane::move_between;
use std::marker::Model;

/// One step of a track: the core after it, and the cells that left in it.
#[derive(Drop)]
pub struct Step {
    core: CellList,
    left: CellList,
}

impl Model for Step {
    ghost use Rattle.life_model.specs.Coded.{coded_generation};
    ghost use Rattle.std.specs.Coded.{coded×};
    ghost use Rattle.life_growth.specs.Engines.Tracks as tracks;

    ghost Value = { tracks.Step };

    ghost coded = { coded× coded_generation coded_generation };

    ghost view = { λ s. (s.core, s.left) };
}

impl Step {
    /// A step to a core, in which some cells left.
    pub fn new(core: CellList, left: CellList) -> Step
        ensures { result ≡ (core, left) }
    {
        Step { core, left }
    }

    /// The core after the step.
    pub fn core(&self) -> &CellList
        ensures { result.now ≡ self.now.0 }
    {
        &self.core
    }

    /// The cells that left the core in the step.
    pub fn left(&self) -> &CellList
        ensures { result.now ≡ self.now.1 }
    {
        &self.left
    }
}

/// The core at the end of some steps.
fn end_of<'a>(start: &'a CellList, steps: &'a [Step]) -> &'a CellList
    ensures { result.now ≡ core_along start.entry.now steps.entry.now (length steps.entry.now) }
{
    if steps.len() == 0 {
        return start;
    }
    steps[steps.len() - 1].core()
}

/// A class of a film's first generation that comes back, and its way until then.
#[derive(Drop)]
pub struct Track {
    place: usize,
    start: CellList,
    steps: Vec<Step>,
}

impl Model for Track {
    ghost use Rattle.life_tracks.specs.Tracks.{Path, coded_path};

    ghost Value = { Path };

    ghost coded = { coded_path };

    ghost view = { λ t. record { place = t.place; start = t.start; steps = t.steps.items } };
}

impl Track {
    /// A track of the class at a place, through the steps.
    pub fn new(place: usize, start: CellList, steps: Vec<Step>) -> Track
        ensures place { result.place ≡ place }
        ensures start { result.start ≡ start }
        ensures steps { result.steps ≡ steps.items }
    {
        Track {
            place,
            start,
            steps,
        }
    }

    /// The place of the class among those of the film's first generation.
    pub fn place(&self) -> usize
        ensures { result ≡ self.now.place }
    {
        self.place
    }

    /// The class itself.
    pub fn start(&self) -> &CellList
        ensures { result.now ≡ self.now.start }
    {
        &self.start
    }

    /// The steps, from the class until it comes back.
    pub fn steps(&self) -> &[Step]
        ensures { result.now ≡ self.now.steps }
    {
        self.steps.as_slice()
    }

    /// The number of generations after which the class comes back.
    pub fn period(&self) -> usize
        ensures { result ≡ (way_of self.now).period }
    {
        self.steps.len()
    }

    /// Its displacement when it comes back.
    pub fn displacement(&self) -> (i32, i32)
        ensures { result ≡ (way_of self.now).displacement }
    {
        let last = end_of(&self.start, self.steps.as_slice());
        let from = corner(self.start.as_slice());
        let to = corner(last.as_slice());
        move_between(from, to)
    }
}
