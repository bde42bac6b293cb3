//! The number of generations for which cells are known to stay away from a set.
ghost use Rattle.std.specs.Prelude.{◌≡◌, ℕ, ◌≤◌, ◌^◌, ◌-ℤ◌, ◌≤ℤ◌, All, pos};
ghost use Rattle.std.specs.Int.{int_max};
ghost use Rattle.life_model.specs.Generation.{Generation, cells, contains};
ghost use Rattle.life_model.specs.Rule.{Rule as ModelRule};
ghost use Rattle.life_objects.specs.Apart.{AreApartBefore, AreDisjoint};
ghost use Rattle.life_objects.specs.Union.{IsSubsetOf};
ghost use Rattle.life_apart.specs.Alone.{AreFar};
ghost use Rattle.life_apart.specs.Bounds.{IsFarOff, IsInBounds};

use life_cells::CellList;

/// Cells that are further away count as if at this distance.
const FARTHEST: i64 = 1_048_576;

/// The bounding box of a set.
#[derive(Clone, Copy)]
struct Bounds {
    left: i32,
    right: i32,
    top: i32,
    bottom: i32,
}

/// The bounding box of the cells, or a box that contains no cell if there are none.
fn bounds_of(set: &CellList) -> Bounds
    ensures { All (IsInBounds result) (cells set.now) }
{
    let mut bounds = Bounds {
        left: i32::MAX,
        right: i32::MIN,
        top: i32::MAX,
        bottom: i32::MIN,
    };
    for cell in set.as_slice() {
        bounds.left = bounds.left.min(cell.0);
        bounds.right = bounds.right.max(cell.0);
        bounds.top = bounds.top.min(cell.1);
        bounds.bottom = bounds.bottom.max(cell.1);
    }
    bounds
}

/// The distance of a place from a range of places; at most 0 within it.
fn distance_from(first: i32, last: i32, place: i32) -> i64
    ensures { result ≡ int_max (first -ℤ place) (place -ℤ last) }
{
    let place = i64::from(place);
    (i64::from(first) - place).max(place - i64::from(last))
}

impl Bounds {
    /// The distance of a cell from the box, in the direction in which it is further.
    fn distance(&self, cell: (i32, i32)) -> i64
        ensures { IsFarOff self.now result cell }
    {
        let across = distance_from(self.left, self.right, cell.0);
        let down = distance_from(self.top, self.bottom, cell.1);
        across.max(down)
    }
}

/// True if a set has a cell. All its cells are searched.
fn has(set: &CellList, cell: (i32, i32)) -> bool
    ensures { result ≡ contains set.now cell }
{
    set.as_slice().contains(&cell)
}

/// The distance from a box around a set to the nearest of the cells that are not in the set, or 0 if one of them is
/// near the box.
fn distance(set: &CellList, cells: &CellList) -> i64
    ensures far { (n : ℕ) (Q : Generation) → pos n ≤ℤ result → IsSubsetOf Q cells.now →
        AreDisjoint set.now Q → AreFar n set.now Q }
    ensures most { result ≤ℤ pos (2 ^ 20) }
{
    let bounds = bounds_of(set);
    let mut least = FARTHEST;
    for cell in cells.as_slice() {
        let far = bounds.distance(*cell);
        if far < 3 {
            if !has(set, *cell) {
                return 0;
            }
        } else {
            least = least.min(far);
        }
    }
    least
}

/// A number of generations from now during which certainly no other of the cells is near one of a set. It is 0 if one
/// may be near already.
pub fn room(set: &CellList, cells: &CellList) -> u32
    ensures apart { (R : ModelRule) (Q : Generation) → IsSubsetOf Q cells.now → AreDisjoint set.now Q →
        AreApartBefore R result set.now Q }
    ensures most { result ≤ 2 ^ 20 }
{
    let far = distance(set, cells);
    if far < 3 {
        return 0;
    }
    (far - 1) as u32 / 2
}
