//! Boxes around cells.
ghost use Rattle.std.specs.Prelude.{◌^◌, All, pos, neg_ℤ, ◌+ℤ◌, ◌≤ℤ◌};
ghost use Rattle.std.specs.Bool.{OnTrue};
ghost use Rattle.life_orbit.specs.Hulls.{AreFar, HoldsAllCells, IsInHull, IsPartOf};
ghost use Rattle.life_orbit.specs.Reach.{IsReach};

use life_cells::CellList;

/// A box around some cells, given by its first and last columns and rows.
#[derive(Clone, Copy)]
pub struct Hull {
    pub left: i32,
    pub right: i32,
    pub top: i32,
    pub bottom: i32,
}

/// The box, extended to one more cell.
fn with_cell(hull: Hull, cell: (i32, i32)) -> Hull
    ensures cell { IsInHull result cell }
    ensures wider { IsPartOf hull result }
{
    Hull {
        left: hull.left.min(cell.0),
        right: hull.right.max(cell.0),
        top: hull.top.min(cell.1),
        bottom: hull.bottom.max(cell.1),
    }
}

/// The box, extended to some more cells.
fn with_cells(hull: Hull, cells: &[(i32, i32)]) -> Hull
    ensures cells { All (IsInHull result) cells.now }
    ensures wider { IsPartOf hull result }
{
    let mut wider = hull;
    for cell in cells {
        wider = with_cell(wider, *cell);
    }
    wider
}

/// A box around a place and all cells of some sets.
pub fn hull_of(place: (i32, i32), sets: &[CellList]) -> Hull
    ensures { All (HoldsAllCells result) sets.now }
{
    let mut hull = Hull {
        left: place.0,
        right: place.0,
        top: place.1,
        bottom: place.1,
    };
    for set in sets {
        hull = with_cells(hull, set.as_slice());
    }
    hull
}

/// True if the first place, moved, is more than two past the other.
fn is_past(place: i32, by: i128, other: i32) -> bool
    requires low { neg_ℤ (pos (2 ^ 126)) ≤ℤ by }
    requires high { by ≤ℤ pos (2 ^ 126) }
    ensures { OnTrue result ((other +ℤ pos 3) ≤ℤ (place +ℤ by)) }
{
    if place as i128 + by > other as i128 + 2 {
        return true;
    }
    false
}

/// True if the first place, moved, is more than two before the other.
fn is_before(place: i32, by: i128, other: i32) -> bool
    requires low { neg_ℤ (pos (2 ^ 126)) ≤ℤ by }
    requires high { by ≤ℤ pos (2 ^ 126) }
    ensures { OnTrue result (((place +ℤ by) +ℤ pos 3) ≤ℤ other) }
{
    if place as i128 + by + 2 < other as i128 {
        return true;
    }
    false
}

/// True if the boxes show that no cell of the first, moved, is near one of the second.
pub fn are_far(hull: Hull, by: (i128, i128), other: Hull) -> bool
    requires { IsReach (2 ^ 126) by }
    ensures { OnTrue result (AreFar hull by other) }
{
    if is_past(hull.left, by.0, other.right) {
        return true;
    }
    if is_before(hull.right, by.0, other.left) {
        return true;
    }
    if is_past(hull.top, by.1, other.bottom) {
        return true;
    }
    if is_before(hull.bottom, by.1, other.top) {
        return true;
    }
    false
}
