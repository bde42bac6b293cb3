//! A later generation of a pattern.
ghost use Rattle.std.specs.Prelude.{◌≡◌, ◌<◌, ◌≤◌, All, IfNone, IfOk, IfSome};
ghost use Rattle.life_model.specs.Evolution.{generation};
ghost use Rattle.life_model.specs.Generation as sets;
ghost use Rattle.life_cells.specs.Limits.{IsWithin};
ghost use Rattle.life_advance.specs.Later.{IsLater, Trails};

use crate::effort::Effort;
use crate::leaping::leapt;
use crate::leaps::LeapPlane;
use crate::walking::walk;
use life_board::Board;
use life_cells::{CellList, Rule};
use life_plane::{AGE_LIMIT, Plane};
use std::alloc::{AllocError, Global};

/// Makes some steps, then leaps if these get further. Returns the cells at the age `until` if that is reached.
fn turn(
    alloc: Global,
    kept: &mut Option<LeapPlane>,
    board: &mut Board,
    rule: &Rule,
    until: u32,
    effort: &mut Effort,
) -> Result<Option<CellList>, AllocError>
    requires until { until ≤ AGE_LIMIT }
    requires young { board.old.1 < until }
    requires kept { Trails rule.now kept.old board.old }
    ensures cells { IfOk result
        (λ end. IfSome end (λ cells. IsLater rule.now board.old (cells, until))) }
    ensures within { IfOk result (λ end. IfNone end (board.new.1 ≤ until)) }
    ensures further { IfOk result (λ end. IfNone end (board.old.1 < board.new.1)) }
    ensures later { IfOk result (λ end. IfNone end (IsLater rule.now board.old board.new)) }
    ensures kept { IfOk result (λ end. IfNone end (Trails rule.now kept.new board.new)) }
{
    walk(board, rule, until, effort)?;
    if board.age() == until {
        return Ok(Some(board.cells()?));
    }
    let Some(landing) = leapt(alloc, kept, board, rule, until, effort) else {
        return Ok(None);
    };
    if landing.age == until {
        return Ok(Some(landing.cells));
    }
    *board = Board::at_age(alloc, &landing.cells, landing.age)?;
    Ok(None)
}

/// The cells of a list `generations` generations later. Steps in tiles are made until leaps may pay, then both
/// alternately. Leaps for which there is no memory are left out.
pub fn generation_of(
    alloc: Global,
    rule: &Rule,
    list: &CellList,
    generations: u32,
) -> Result<CellList, AllocError>
    requires generations { generations ≤ AGE_LIMIT }
    requires within { All (IsWithin 0) (sets.cells list.now) }
    ensures { IfOk result (λ later. later ≡ generation rule.now list.now generations) }
{
    let mut board = Board::from_cells(alloc, list)?;
    let mut kept = None;
    let mut effort = Effort::new();
    'turns: for _ in 0..generations {
        if board.age() == generations {
            return board.cells();
        }
        let end = turn(alloc, &mut kept, &mut board, rule, generations, &mut effort)?;
        if let Some(cells) = end {
            return Ok(cells);
        }
    }
    board.cells()
}
