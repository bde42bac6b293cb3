//! Moves that take an island to later cells and, reversed, the cells that hang on it to the first.
ghost use Rattle.std.specs.Prelude.{◌≡◌, ◌<◌, ◌≤◌, false, IfOk, IfSome, IsTrue, OnOk, T, true};
ghost use Rattle.std.specs.Bool.{OnTrue};
ghost use Rattle.life_model.specs.Cell.{opposite};
ghost use Rattle.life_model.specs.Generation as generation;
ghost use Rattle.life_model.specs.Generation.{contains, is_rising};
ghost use Rattle.life_cells.specs.Limits.{IsPlace};
ghost use Rattle.life_plane.specs.Offsets.{IsMovedInto, IsMoveWithin};
ghost use Rattle.life_strays.specs.Strays.{IsNoReturn, LacksSome};

use crate::heirs::is_place;
use crate::trail::Trail;
use life_cells::CellList;
use life_plane::{AGE_LIMIT, Plane, is_live, move_between};
use std::alloc::AllocError;

/// The number of cells that are looked up for each cell of a generation, to see whether an island has come back there.
const EACH: u64 = 32;

/// True if a move goes at most `reach` places to any side.
fn is_move_within(by: (i32, i32), reach: u32) -> bool
    requires reach { reach ≤ AGE_LIMIT }
    ensures within { IsTrue result → IsMoveWithin reach by }
    ensures beyond { result ≡ false → IsMoveWithin reach by → ⊥ }
{
    let most = reach as i32;
    -most <= by.0 && by.0 <= most && -most <= by.1 && by.1 <= most
}

/// The reverse of a move.
fn back(by: (i32, i32)) -> (i32, i32)
    requires { IsMoveWithin AGE_LIMIT by }
    ensures way { result ≡ opposite by }
    ensures within { IsMoveWithin AGE_LIMIT result }
{
    (-by.0, -by.1)
}

/// False only if a move takes some of the cells to places that are not live in a plane. At most `left` cells are looked up,
/// and `left` is reduced by their number. A positive answer means nothing.
fn may_lead<P: Plane>(plane: &P, cells: &CellList, by: (i32, i32), left: &mut u64) -> bool
    requires by { IsMoveWithin AGE_LIMIT by }
    ensures { result ≡ false → IsMovedInto cells.now (P.members plane.now) by → ⊥ }
{
    for cell in cells.as_slice() {
        if *left == 0 {
            return true;
        }
        *left -= 1;
        let place = (cell.0 + by.0, cell.1 + by.1);
        if is_place(place) && plane.row(place) % 2 == 0 {
            return false;
        }
    }
    true
}

/// False only if a move doesn't both take a set to live cells of a later plane and, reversed, its heirs to live cells of the
/// first. The later plane is at generation `number`, so no move goes further than that. At most `left` cells are looked up.
fn may_return<P: Plane>(
    start: &P,
    later: &P,
    set: &CellList,
    heirs: &CellList,
    number: u32,
    by: (i32, i32),
    left: &mut u64,
) -> bool
    requires number { number ≤ AGE_LIMIT }
    ensures { result ≡ false →
        IsNoReturn number (P.members start.now) (P.members later.now) set.now heirs.now by }
{
    if !is_move_within(by, number) {
        return false;
    }
    if !may_lead(later, set, by, left) {
        return false;
    }
    may_lead(start, heirs, back(by), left)
}

/// The answer of `may_return`, after a quick check: the move must take the cell `one` of the set to one of `cells`, those of
/// the later plane, in order. The cursor is where such a cell was last found.
fn may_return_by<P: Plane>(
    start: &P,
    later: &P,
    cells: &[(i32, i32)],
    cursor: &mut usize,
    set: &CellList,
    heirs: &CellList,
    number: u32,
    one: (i32, i32),
    by: (i32, i32),
    left: &mut u64,
) -> bool
    requires number { number ≤ AGE_LIMIT }
    requires rising { T (is_rising cells.now) }
    requires cells { cells.now ≡ generation.cells (P.members later.now) }
    requires placed { IsPlace one }
    requires one { contains set.now one ≡ true }
    ensures { result ≡ false →
        IsNoReturn number (P.members start.now) (P.members later.now) set.now heirs.now by }
{
    if !is_move_within(by, number) {
        return false;
    }
    if !is_live(cells, cursor, (one.0 + by.0, one.1 + by.1)) {
        return false;
    }
    may_return(start, later, set, heirs, number, by, left)
}

/// False only if no move both takes a set to live cells of a later plane and, reversed, its heirs to live cells of the first.
/// `cells` are those of the later plane. Where most moves take most cells to live ones, as in a pattern that fills the plane,
/// the search gives up once it has looked up `EACH` cells for each of the later plane.
fn some_may_return<P: Plane>(
    start: &P,
    later: &P,
    cells: &CellList,
    set: &CellList,
    heirs: &CellList,
    number: u32,
) -> bool
    requires number { number ≤ AGE_LIMIT }
    requires cells { cells.now ≡ P.members later.now }
    ensures { result ≡ false →
        LacksSome number (P.members start.now) (P.members later.now) set.now heirs.now }
{
    let all = set.as_slice();
    if all.is_empty() {
        return true;
    }
    let first = all[0];
    let last = all[all.len() - 1];
    let listed = cells.as_slice();
    let mut left = EACH.saturating_mul(listed.len() as u64);
    let mut cursor = 0;
    for cell in listed {
        let by = move_between(first, *cell);
        if may_return_by(
            start,
            later,
            listed,
            &mut cursor,
            set,
            heirs,
            number,
            last,
            by,
            &mut left,
        ) {
            return true;
        }
    }
    false
}

/// The cells of a plane, taken from `listed` if they have been listed before.
fn listed_once<P: Plane>(plane: &P, listed: Option<CellList>) -> Result<CellList, AllocError>
    requires { IfSome listed (λ list. list ≡ P.members plane.now) }
    ensures { IfOk result (λ list. list ≡ P.members plane.now) }
{
    match listed {
        Some(list) => Ok(list),
        None => plane.cells(),
    }
}

/// True if a trail may still show that there is no ash, where `heirs` are its heirs in generation `number`, that of the later
/// plane. Up to generation `after` this is not tested. The later plane's cells are listed when they are first needed.
pub fn still_tells<P: Plane>(
    start: &P,
    later: &P,
    trail: &Trail,
    heirs: &CellList,
    number: u32,
    after: u32,
    listed: &mut Option<CellList>,
) -> Result<bool, AllocError>
    requires number { number ≤ AGE_LIMIT }
    requires listed { IfSome listed.old (λ list. list ≡ P.members later.now) }
    ensures listed { OnOk result (IfSome listed.new (λ list. list ≡ P.members later.now)) }
    ensures told { IfOk result (λ tells. OnTrue tells ((trail.now.tells ≡ true) × (after < number →
        LacksSome number (P.members start.now) (P.members later.now) trail.now.set heirs.now))) }
{
    if !trail.tells {
        return Ok(false);
    }
    if number <= after {
        return Ok(true);
    }
    if !later.may_have_moved(&trail.set, number) {
        return Ok(true);
    }
    let cells = listed_once(later, listed.take())?;
    let returns = some_may_return(start, later, &cells, &trail.set, heirs, number);
    *listed = Some(cells);
    if returns {
        return Ok(false);
    }
    Ok(true)
}
