//! Steps of a plane of tiles.
ghost use Rattle.std.specs.Prelude.{◌≡◌, ℕ, ◌+◌, ◌<◌, ◌≤◌, OnOk};
ghost use Rattle.life_advance.specs.Later.{IsLater};

use crate::effort::{Effort, SAMPLE};
use life_board::Board;
use life_cells::Rule;
use life_plane::{AGE_LIMIT, Plane};
use std::alloc::AllocError;

/// Counts the work of steps, once in `SAMPLE` steps.
fn count_steps(board: &Board, age: u32, effort: &mut Effort) {
    if age % SAMPLE == 0 {
        effort.add_steps(board.active_bands());
    }
}

/// Makes steps until an age, or until leaps are to be tried, but at least one.
pub fn walk(
    board: &mut Board,
    rule: &Rule,
    until: u32,
    effort: &mut Effort,
) -> Result<(), AllocError>
    requires until { until ≤ AGE_LIMIT }
    requires young { board.old.1 < until }
    ensures within { OnOk result (board.new.1 ≤ until) }
    ensures further { OnOk result (board.old.1 < board.new.1) }
    ensures later { OnOk result (IsLater rule.now board.old board.new) }
{
    for age in board.age()..until {
        board.step(rule)?;
        count_steps(board, age, effort);
        if effort.is_trial_due(age, until - age - 1) {
            return Ok(());
        }
    }
    Ok(())
}
