//! Joining the places of a generation's cells if the cells are near each other, or bear cells of the same set.
ghost use Rattle.std.specs.Prelude.{◌≡◌, ℕ, ◌<◌, IfOk, List, length, true};
ghost use Rattle.std.specs.List.{Contains};
ghost use Rattle.life_model.specs.Cell.{Cell};
ghost use Rattle.life_model.specs.Generation.{Generation, cells, contains};
ghost use Rattle.life_tracks.specs.Frames.Bearers.{IsTouched};
ghost use Rattle.life_tracks.specs.Frames.Nearby.{HoldsNear, IsJoinedNear};
ghost use Rattle.life_tracks.specs.Frames.Ties.{AreTouched, IsFurther, IsJoined, JoinsTied};

use crate::frames::bearers::{bearer, rows};
use crate::frames::forest::{flatten, join};
use crate::frames::nearby::join_near;
use life_cells::CellList;
use life_islands::numbers;
use std::alloc::{AllocError, Global};

/// Joins the cells that bear the cells of a set. They are looked up where cells were last found, by a table of rows.
fn join_set(forest: &mut Vec<usize>, list: &CellList, set: &CellList, near: &mut [usize])
    requires long { length forest.old.items ≡ length (cells list.now) }
    requires touched { (c : Cell) → contains set.now c ≡ true → IsTouched list.now c }
    ensures further { IsFurther forest.old.items forest.new.items }
    ensures joined { IsJoined list.now forest.new.items set.now }
    ensures tied { (Ss : List Generation) → Contains Ss set.now → JoinsTied list.now Ss forest.old.items →
        JoinsTied list.now Ss forest.new.items }
{
    let all = set.as_slice();
    if all.len() == 0 {
        return;
    }
    let first = bearer(list, all[0], near);
    for n in 1..all.len() {
        let other = bearer(list, all[n], near);
        join(forest, first, other);
    }
}

/// Joins, for each of the sets, the cells that bear cells of it.
fn join_sets(forest: &mut Vec<usize>, list: &CellList, sets: &[CellList], near: &mut [usize])
    requires long { length forest.old.items ≡ length (cells list.now) }
    requires touched { AreTouched list.now sets.now }
    ensures further { IsFurther forest.old.items forest.new.items }
    ensures joined { (S : Generation) → Contains sets.now S → IsJoined list.now forest.new.items S }
    ensures tied { (Ss : List Generation) → ((S : Generation) → Contains sets.now S → Contains Ss S) →
        JoinsTied list.now Ss forest.old.items → JoinsTied list.now Ss forest.new.items }
{
    for n in 0..sets.len() {
        join_set(forest, list, &sets[n], near);
    }
}

/// The places of the cells, joined if the cells are near each other, or bear cells of the same set.
pub fn joined(alloc: Global, list: &CellList, later: &[CellList]) -> Result<Vec<usize>, AllocError>
    requires later { AreTouched list.now later.now }
    ensures long { IfOk result (λ forest. length forest.items ≡ length (cells list.now)) }
    ensures near { IfOk result (λ forest. IsJoinedNear list.now forest.items) }
    ensures later { IfOk result (λ forest. (S : Generation) → Contains later.now S → IsJoined list.now forest.items S) }
    ensures tied { IfOk result (λ forest. (Ss : List Generation) →
        HoldsNear list.now Ss →
        ((S : Generation) → Contains later.now S → Contains Ss S) → JoinsTied list.now Ss forest.items) }
{
    let mut forest = numbers(alloc, list.len())?;
    join_near(&mut forest, list);
    let mut near = rows(alloc)?;
    join_sets(&mut forest, list, later, near.as_mut_slice());
    flatten(&mut forest);
    Ok(forest)
}
