//! Generations of a pattern that are kept on the way, so that a later walk need not start with the pattern itself.
ghost use Rattle.std.specs.Prelude.{◌≡◌, ◌≤◌, [], All, IfOk, ℕ};
ghost use Rattle.life_model.specs.Evolution.{generation};
ghost use Rattle.life_model.specs.Generation.{Generation};
ghost use Rattle.life_model.specs.Rule.{Rule as ModelRule};
ghost use Rattle.life_apart.specs.Onsets.Moments.{IsMomentOf, Moment};

use life_cells::CellList;
use life_plane::{AGE_LIMIT, Plane};
use std::alloc::{AllocError, Global};
use std::marker::Model;

/// The greatest number of generations that are kept.
const MOST: usize = 3;

/// The least number of generations from one that is kept to the next, in addition to an eighth of the age.
const BETWEEN: u32 = 48;

/// The cells of a generation, and its number.
#[derive(Drop)]
pub struct Kept {
    cells: CellList,
    number: u32,
}

impl Model for Kept {
    ghost use Rattle.std.specs.Prelude.{All};
    ghost use Rattle.life_model.specs.Generation as generations;
    ghost use Rattle.life_cells.specs.Limits.{IsWithin};
    ghost use Rattle.life_apart.specs.Onsets.Moments.{Moment, coded_moment};

    ghost Value = { Moment };

    ghost coded = { coded_moment };

    ghost view = { λ k. record { cells = k.cells; number = k.number } };

    ghost invariant = { λ k. All (IsWithin k.number) (generations.cells k.cells) };
}

impl Kept {
    /// The cells of a plane, with its age as their number.
    fn of<P: Plane>(plane: &P) -> Result<Kept, AllocError>
        ensures cells { IfOk result (λ kept. kept.cells ≡ P.members plane.now) }
        ensures number { IfOk result (λ kept. kept.number ≡ P.steps_made plane.now) }
    {
        let number = plane.age();
        let cells = plane.cells()?;
        Ok(Kept { cells, number })
    }

    /// The number.
    pub fn number(&self) -> u32
        ensures { result ≡ self.now.number }
    {
        self.number
    }

    /// A plane of these cells whose age is the number.
    pub fn plane<P: Plane>(&self, alloc: Global) -> Result<P, AllocError>
        requires { self.now.number ≤ AGE_LIMIT }
        ensures cells { IfOk result (λ plane. P.members plane ≡ self.now.cells) }
        ensures age { IfOk result (λ plane. P.steps_made plane ≡ self.now.number) }
    {
        P::at_age(alloc, &self.cells, self.number)
    }
}

/// A few generations of a pattern, the last one first. Their number and choice matter only for speed.
#[derive(Drop)]
pub struct Trail {
    kept: Vec<Kept>,
    due: u32,
}

impl Model for Trail {
    ghost use Rattle.std.specs.Prelude.{List};
    ghost use Rattle.std.specs.Coded.{coded_list};
    ghost use Rattle.life_apart.specs.Onsets.Moments.{Moment, coded_moment};

    ghost Value = { List Moment };

    ghost coded = { coded_list coded_moment };

    ghost view = { λ t. t.kept.items };
}

impl Trail {
    /// The empty trail.
    pub fn new(alloc: Global) -> Trail
        ensures { result ≡ [] }
    {
        Trail {
            kept: Vec::new(alloc),
            due: BETWEEN,
        }
    }

    /// Keeps the generation that a plane is at, if the last one that was kept is some time ago. If many are kept, it
    /// takes the place of the earliest. Correctness does not depend on whether it is kept. Even after an `Err`, those
    /// that are kept are right.
    pub fn note<P: Plane>(&mut self, plane: &P) -> Result<(), AllocError>
        ensures { (R : ModelRule) (G : Generation) →
            P.members plane.now ≡ generation R G (P.steps_made plane.now) →
            All (IsMomentOf R G) self.old → All (IsMomentOf R G) self.new }
    {
        let age = plane.age();
        if age < self.due {
            return Ok(());
        }
        let kept = Kept::of(plane)?;
        self.due = age.saturating_add(age / 8).saturating_add(BETWEEN);
        self.kept.truncate(MOST - 1);
        self.kept.insert(0, kept)?;
        Ok(())
    }

    /// The generations that are kept.
    pub fn kept(&self) -> &[Kept]
        ensures { result.now ≡ self.now }
    {
        self.kept.as_slice()
    }
}
