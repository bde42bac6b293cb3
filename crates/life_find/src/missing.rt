//! The test of whether listed cells are missing among others, and far from them.
ghost use Rattle.std.specs.Prelude.{◌<◌, ◌≤◌, IsTrue, All, length, pos};
ghost use Rattle.life_model.specs.Cell.{opposite, plus};
ghost use Rattle.life_cells.specs.Limits.{IsPlace, extent_limit};
ghost use Rattle.life_find.specs.Quiet.{IsAway, IsFar, IsMissed, IsReachedBy};

/// True only if a cell, after the move from one place to another, is more than `reach` columns from another cell.
fn is_far_across(
    cell: (i32, i32),
    from: (i32, i32),
    to: (i32, i32),
    other: (i32, i32),
    reach: u32,
) -> bool
    requires cell { IsPlace cell }
    requires from { IsPlace from }
    requires to { IsPlace to }
    requires other { IsPlace other }
    requires most { reach ≤ extent_limit }
    ensures { IsTrue result → IsReachedBy (pos reach) (plus cell (plus to (opposite from))) other →
        ⊥ }
{
    let x = cell.0 - from.0 + to.0;
    let far = reach as i32;
    if x > other.0 + far {
        return true;
    }
    if x + far < other.0 {
        return true;
    }
    false
}

/// True only if a cell, after the move from one place to another, is more than `reach` rows from another cell.
fn is_far_down(
    cell: (i32, i32),
    from: (i32, i32),
    to: (i32, i32),
    other: (i32, i32),
    reach: u32,
) -> bool
    requires cell { IsPlace cell }
    requires from { IsPlace from }
    requires to { IsPlace to }
    requires other { IsPlace other }
    requires most { reach ≤ extent_limit }
    ensures { IsTrue result → IsReachedBy (pos reach) (plus cell (plus to (opposite from))) other →
        ⊥ }
{
    let y = cell.1 - from.1 + to.1;
    let far = reach as i32;
    if y > other.1 + far {
        return true;
    }
    if y + far < other.1 {
        return true;
    }
    false
}

/// True only if a cell, after the move from one place to another, is more than `reach` from another cell, in columns or in
/// rows.
fn is_far(cell: (i32, i32), from: (i32, i32), to: (i32, i32), other: (i32, i32), reach: u32) -> bool
    requires cell { IsPlace cell }
    requires from { IsPlace from }
    requires to { IsPlace to }
    requires other { IsPlace other }
    requires most { reach ≤ extent_limit }
    ensures { IsTrue result → IsReachedBy (pos reach) (plus cell (plus to (opposite from))) other →
        ⊥ }
{
    if is_far_across(cell, from, to, other, reach) {
        return true;
    }
    is_far_down(cell, from, to, other, reach)
}

/// True only if a cell, after the move from one place to another, is more than `reach` from each of some cells.
fn is_far_from_all(
    cell: (i32, i32),
    from: (i32, i32),
    to: (i32, i32),
    cells: &[(i32, i32)],
    reach: u32,
) -> bool
    requires cell { IsPlace cell }
    requires from { IsPlace from }
    requires to { IsPlace to }
    requires placed { All IsPlace cells.now }
    requires most { reach ≤ extent_limit }
    ensures { IsTrue result → IsFar (pos reach) (plus cell (plus to (opposite from))) cells.now }
{
    for other in cells {
        if !is_far(cell, from, to, *other, reach) {
            return false;
        }
    }
    true
}

/// True only if one of the listed cells, after the move from one place to another, is more than `reach` from each of some
/// cells.
fn one_is_missed(
    listed: &[(i32, i32)],
    from: (i32, i32),
    to: (i32, i32),
    cells: &[(i32, i32)],
    reach: u32,
) -> bool
    requires listed { All IsPlace listed.now }
    requires from { IsPlace from }
    requires to { IsPlace to }
    requires placed { All IsPlace cells.now }
    requires most { reach ≤ extent_limit }
    ensures { IsTrue result → IsMissed (pos reach) listed.now cells.now (plus to (opposite from)) }
{
    for cell in listed {
        if is_far_from_all(*cell, from, to, cells, reach) {
            return true;
        }
    }
    false
}

/// True only if, whichever of some cells the first of the listed ones is moved to, one of the listed ones is then more than
/// `reach` from each of these cells.
pub fn are_away(listed: &[(i32, i32)], cells: &[(i32, i32)], reach: u32) -> bool
    requires some { 0 < length listed.now }
    requires listed { All IsPlace listed.now }
    requires placed { All IsPlace cells.now }
    requires most { reach ≤ extent_limit }
    ensures { IsTrue result → IsAway (pos reach) listed.now cells.now }
{
    for to in cells {
        if !one_is_missed(listed, listed[0], *to, cells, reach) {
            return false;
        }
    }
    true
}
