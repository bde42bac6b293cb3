//! Cells that hang on others, a generation later.
ghost use Rattle.std.specs.Prelude.{◌≤◌, ◌+ℤ◌, ◌-ℤ◌, ℕ, pos, ◌≡◌, ◌<◌, All, IfOk, IsTrue, OnOk, true};
ghost use Rattle.std.specs.Int.{bit_at};
ghost use Rattle.life_model.specs.Generation.{Generation, contains};
ghost use Rattle.life_cells.specs.Limits.{IsPlace};
ghost use Rattle.life_strays.specs.Strays.{AreHeirs, IsHeir};

use life_cells::{CellList, put_in_order};
use life_plane::Plane;
use std::alloc::{AllocError, Global};

/// The greatest coordinate of a cell of a list. The least is `-LAST_PLACE - 1`.
const LAST_PLACE: i32 = 16_777_215;

/// True if a cell may be in a list.
pub fn is_place(cell: (i32, i32)) -> bool
    ensures { IsTrue result → IsPlace cell }
{
    -LAST_PLACE <= cell.0 && cell.0 <= LAST_PLACE && -LAST_PLACE <= cell.1 && cell.1 <= LAST_PLACE
}

/// The cell `rows` rows below the one to the north-west of a cell.
fn corner(cell: (i32, i32), rows: u32) -> (i32, i32)
    requires placed { IsPlace cell }
    requires rows { rows < 3 }
    ensures { result ≡ (cell.0 -ℤ pos 1, (cell.1 -ℤ pos 1) +ℤ pos rows) }
{
    (cell.0 - 1, cell.1 - 1 + rows as i32)
}

/// The cell `places` places to the east.
fn east_of(cell: (i32, i32), places: u32) -> (i32, i32)
    requires placed { IsPlace cell }
    requires places { places < 3 }
    ensures { result ≡ (cell.0 +ℤ pos places, cell.1) }
{
    (cell.0 + places as i32, cell.1)
}

/// Appends those of the three cells from `first` eastwards that are live, by the three lowest bits of a word.
fn push_three(word: u64, first: (i32, i32), heirs: &mut Vec<(i32, i32)>) -> Result<(), AllocError>
    requires first { IsPlace first }
    requires before { All IsPlace heirs.old.items }
    ensures placed { OnOk result (All IsPlace heirs.new.items) }
    ensures heirs { OnOk result ((G K : Generation) →
        ((j : ℕ) → j < 3 → bit_at word j ≡ 1 → IsHeir G K (first.0 +ℤ pos j, first.1)) →
        All (IsHeir G K) heirs.old.items → All (IsHeir G K) heirs.new.items) }
{
    for n in 0..3 {
        let place = east_of(first, n);
        if (word >> n) % 2 == 1 && is_place(place) {
            heirs.push(place)?;
        }
    }
    Ok(())
}

/// Appends those of a cell and the eight around it that are live.
fn push_heirs<P: Plane>(
    plane: &P,
    cell: (i32, i32),
    heirs: &mut Vec<(i32, i32)>,
) -> Result<(), AllocError>
    requires cell { IsPlace cell }
    requires before { All IsPlace heirs.old.items }
    ensures placed { OnOk result (All IsPlace heirs.new.items) }
    ensures heirs { OnOk result ((K : Generation) → contains K cell ≡ true →
        All (IsHeir (P.members plane.now) K) heirs.old.items →
        All (IsHeir (P.members plane.now) K) heirs.new.items) }
{
    for n in 0..3 {
        let first = corner(cell, n);
        if is_place(first) {
            push_three(plane.row(first), first, heirs)?;
        }
    }
    Ok(())
}

/// Cells of a plane, each of which is one of `cells`, the cells of the generation before, or next to one. About `many` of
/// `cells` are looked at, spread over all of them, and all cells of the plane at these or next to these are returned.
pub fn heirs_of<P: Plane>(
    alloc: Global,
    plane: &P,
    cells: &CellList,
    many: u32,
) -> Result<CellList, AllocError>
    requires { 1 ≤ many }
    ensures { IfOk result (AreHeirs (P.members plane.now) cells.now) }
{
    let all = cells.as_slice();
    let every = all.len() / many as usize + 1;
    let mut heirs = Vec::new(alloc);
    for n in 0..all.len() {
        if n % every == 0 {
            push_heirs(plane, all[n], &mut heirs)?;
        }
    }
    put_in_order(&mut heirs);
    Ok(CellList::from_ordered(heirs))
}
