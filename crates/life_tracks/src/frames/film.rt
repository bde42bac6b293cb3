//! A film: the generations of a plane up to a last one.
ghost use Rattle.std.specs.Prelude.{◌≡◌, ℕ, ◌+◌, ◌-◌, ◌≤◌, ◌<◌, IfOk, length};
ghost use Rattle.life_model.specs.Evolution.{generation, next};
ghost use Rattle.life_model.specs.Generation.{Generation};
ghost use Rattle.life_model.specs.Rule.{Rule as ModelRule};
ghost use Rattle.life_growth.specs.Unsplit.{AreClasses};
ghost use Rattle.life_tracks.specs.Frames.Frames.{AreFrames, AreGenerations, AreParents, IsFilm, IsNextFrame, classes_at, parents_at};

use crate::frames::frame::{Frame, frame_before, last_frame};
use life_cells::{CellList, Rule};
use life_plane::{AGE_LIMIT, Plane};
use std::alloc::{AllocError, Global};

/// The classes of each generation of a plane from 0 to the film's last one: the finest split of the generation into
/// sets that stay apart up to the last one. The film holds each cell of each generation once.
#[derive(Drop)]
pub struct Film {
    frames: Vec<Frame>,
}

/// The cells of a plane, and those of the next `length` generations.
fn generations<P: Plane>(
    alloc: Global,
    plane: &P,
    rule: &Rule,
    length: u32,
) -> Result<Vec<CellList>, AllocError>
    requires young { P.steps_made plane.now + length ≤ AGE_LIMIT }
    ensures { IfOk result (λ all. AreGenerations rule.now (P.members plane.now) (length + 1) all.items) }
{
    let mut all = Vec::new(alloc);
    let mut later = plane.copy()?;
    all.push(later.cells()?)?;
    for _ in 0..length {
        later.step(rule)?;
        all.push(later.cells()?)?;
    }
    Ok(all)
}

/// The frame of a generation. `frames` are those of the later ones, read backwards.
fn frame_of(alloc: Global, list: &CellList, frames: &[Frame]) -> Result<Frame, AllocError>
    requires { (R : ModelRule) × (G : Generation) × (T : ℕ) × AreFrames R G T (length frames.now) frames.now
        × (length frames.now ≤ T) × (list.now ≡ generation R G (T - length frames.now)) }
    ensures { IfOk result (λ frame. (R : ModelRule) (G : Generation) (T : ℕ) →
        AreFrames R G T (length frames.now) frames.now → length frames.now ≤ T →
        list.now ≡ generation R G (T - length frames.now) →
        IsNextFrame R G T frames.now frame) }
{
    let count = frames.len();
    if count == 0 {
        let last = last_frame(alloc, list)?;
        return Ok(last);
    }
    let frame = frame_before(alloc, list, frames[count - 1].classes.as_slice())?;
    Ok(frame)
}

/// The frames of generations, read backwards.
fn frames(alloc: Global, all: Vec<CellList>) -> Result<Vec<Frame>, AllocError>
    requires { (R : ModelRule) × (G : Generation) × (T : ℕ) × AreGenerations R G (T + 1) all.items }
    ensures { IfOk result (λ frames. (R : ModelRule) (G : Generation) (T : ℕ) → AreGenerations R G (T + 1) all.items →
        AreFrames R G T (T + 1) frames.items) }
{
    let mut all = all;
    let mut frames = Vec::with_capacity(alloc, all.len())?;
    while let Some(list) = all.pop() {
        let frame = frame_of(alloc, &list, frames.as_slice())?;
        frames.push(frame)?;
    }
    Ok(frames)
}

impl Film {
    /// The film of a plane's cells as generation 0 and of the generations up to `length`.
    ///
    /// The time is proportional to the number of cells of all generations times its logarithm.
    pub fn of<P: Plane>(
        alloc: Global,
        plane: &P,
        rule: &Rule,
        length: u32,
    ) -> Result<Film, AllocError>
        requires young { P.steps_made plane.now + length ≤ AGE_LIMIT }
        ensures { IfOk result (IsFilm rule.now (P.members plane.now) length) }
    {
        let all = generations(alloc, plane, rule, length)?;
        let frames = frames(alloc, all)?;
        Ok(Film { frames })
    }

    /// The number of the film's last generation.
    pub fn length(&self) -> usize
        ensures count { result ≡ length self.now.frames.items - 1 }
        ensures length { (R : ModelRule) (G : Generation) (T : ℕ) → IsFilm R G T self.now → result ≡ T }
    {
        self.frames.len().saturating_sub(1)
    }

    /// The classes of a generation, for all generations that are left up to the last one; none after that.
    pub fn classes(&self, t: usize) -> &[CellList]
        ensures lent { t < length self.now.frames.items → result.now ≡ classes_at self.now t }
        ensures classes { (R : ModelRule) (G : Generation) (T : ℕ) → IsFilm R G T self.now → t ≤ T →
            AreClasses R (T - t) (generation R G t) result.now }
    {
        if t >= self.frames.len() {
            return &[];
        }
        self.frames[self.frames.len() - 1 - t].classes.as_slice()
    }

    /// For each class of the generation after `t`, in their order, the place of the class of generation `t` that bears
    /// it. None for the last generation.
    pub fn parents(&self, t: usize) -> &[usize]
        ensures lent { t < length self.now.frames.items → result.now ≡ parents_at self.now t }
        ensures parents { (R : ModelRule) (G : Generation) (T : ℕ) → IsFilm R G T self.now → t < T →
            AreParents R (classes_at self.now t) (classes_at self.now (t + 1)) result.now }
    {
        if t >= self.frames.len() {
            return &[];
        }
        self.frames[self.frames.len() - 1 - t].parents.as_slice()
    }
}
