//! The middle of four leaves some generations later.
ghost use Rattle.std.specs.Prelude.{◌≤◌, pos};
ghost use Rattle.life_model.specs.Cell.{Cell, plus};
ghost use Rattle.life_model.specs.Evolution.{generation};
ghost use Rattle.life_model.specs.Generation.{Generation};
ghost use Rattle.life_model.specs.Rule.{Rule};
ghost use Rattle.life_plane.specs.Logics.{IsLogicOf};
ghost use Rattle.life_slots.specs.Leaves.{ShowsFour, ShowsLeaf};

use crate::area::{advance, area_of, middle};
use crate::leaf::{FourLeaves, Leaf};
use life_plane::{Logic, Tile};

/// The middle of four leaves `generations` generations later, at most sixteen: the 32 by 32 cells from column 16 and row 16 on.
/// It is the same for every set that has these cells there, whatever cells it has elsewhere.
pub fn middle_later(logic: &Logic, four: &FourLeaves, generations: u32) -> Leaf
    requires { generations ≤ 16 }
    ensures { (rule : Rule) → IsLogicOf logic.now rule → (G : Generation) → (place : Cell) →
        ShowsFour four.now G place →
        ShowsLeaf result (generation rule G generations) (plus place (pos 16, pos 16)) }
{
    let mut here = area_of(four);
    let mut there = Tile::EMPTY;
    let generations = generations as usize;
    for twice in 0..generations / 2 {
        advance(logic, 2 * twice, &here, &mut there);
        advance(logic, 2 * twice + 1, &there, &mut here);
    }
    if generations % 2 == 0 {
        return middle(&here);
    }
    advance(logic, generations - 1, &here, &mut there);
    middle(&there)
}
