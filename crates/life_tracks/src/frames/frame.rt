//! The classes of one generation of a film.
ghost use Rattle.std.specs.Prelude.{◌≡◌, ℕ, ◌+◌, IfOk};
ghost use Rattle.life_model.specs.Evolution.{next};
ghost use Rattle.life_model.specs.Rule.{Rule};
ghost use Rattle.life_growth.specs.Unsplit.{AreClasses};
ghost use Rattle.life_tracks.specs.Frames.Frames.{AreParents};

use crate::frames::joining::joined;
use crate::frames::parents::parents;
use crate::frames::pieces::near_pieces;
use life_cells::CellList;
use life_growth::classes_are_told_backwards;
use life_islands::gathered;
use std::alloc::{AllocError, Global};

/// The classes of a generation, and for each class of the next one, in their order, the place of the class that bears it.
#[derive(Drop)]
pub struct Frame {
    pub classes: Vec<CellList>,
    pub parents: Vec<usize>,
}

/// The last generation of a film, whose classes are its near pieces.
pub fn last_frame(alloc: Global, list: &CellList) -> Result<Frame, AllocError>
    ensures { IfOk result (λ frame. (R : Rule) → AreClasses R 0 list.now frame.classes.items) }
{
    Ok(Frame {
        classes: near_pieces(alloc, list)?,
        parents: Vec::new(alloc),
    })
}

/// The frame of a generation, where `later` are the classes of the next one. Its classes are its near pieces, joined
/// wherever they bear cells of the same class. Cells are joined by their places.
pub fn frame_before(alloc: Global, list: &CellList, later: &[CellList]) -> Result<Frame, AllocError>
    requires { (R : Rule) × (b : ℕ) × AreClasses R b (next R list.now) later.now }
    ensures classes { IfOk result (λ frame. (R : Rule) (b : ℕ) → AreClasses R b (next R list.now) later.now →
        AreClasses R (b + 1) list.now frame.classes.items) }
    ensures parents { IfOk result (λ frame. (R : Rule) (b : ℕ) → AreClasses R b (next R list.now) later.now →
        AreParents R frame.classes.items later.now frame.parents.items) }
{
    // The theorem that the joined pieces are classes.
    classes_are_told_backwards();
    let forest = joined(alloc, list, later)?;
    let classes = gathered(alloc, list, forest.as_slice())?;
    let parents = parents(alloc, list, forest.as_slice(), classes.as_slice(), later)?;
    Ok(Frame { classes, parents })
}
