//! Sets of joined cells as lists.
ghost use Rattle.std.specs.Prelude.{◌≡◌, ◌<◌, ◌++◌, ◌∷◌, [], All, IfOk, OnOk, T, get_or, length, map, replicate, set, vec_len};
ghost use Rattle.life_model.specs.Generation.{cells, is_rising};
ghost use Rattle.life_cells.specs.Limits.{IsPlace};
ghost use Rattle.life_classes.specs.Grouped.{lists_of};
ghost use Rattle.life_islands.specs.Collected.{by_roots, some_of};
ghost use Rattle.life_islands.specs.Labels.{AreThoseWithCells, joined_sets};

use life_cells::CellList;
use life_classes::root;
use std::alloc::{AllocError, Global};

/// `count` empty lists.
fn empty_lists(alloc: Global, count: usize) -> Result<Vec<Vec<(i32, i32)>>, AllocError>
    ensures { IfOk result (λ lists. lists_of lists.items ≡ replicate count []) }
{
    let mut lists = Vec::with_capacity(alloc, count)?;
    for _ in 0..count {
        lists.push(Vec::new(alloc))?;
    }
    Ok(lists)
}

/// Appends a cell to the list at a place.
fn put(lists: &mut Vec<Vec<(i32, i32)>>, place: usize, cell: (i32, i32)) -> Result<(), AllocError>
    requires { place < vec_len lists.old }
    ensures { OnOk result (lists_of lists.new.items ≡
        set (lists_of lists.old.items) place (get_or (lists_of lists.old.items) place [] ++ (cell ∷ []))) }
{
    lists[place].push(cell)?;
    Ok(())
}

/// The cells, each in the list of its root.
fn by_root(
    alloc: Global,
    cells: &[(i32, i32)],
    forest: &[usize],
) -> Result<Vec<Vec<(i32, i32)>>, AllocError>
    requires { T (is_rising cells.now) }
    ensures { IfOk result (λ lists. lists_of lists.items ≡ by_roots cells.now forest.now cells.now) }
{
    let mut lists = empty_lists(alloc, cells.len())?;
    for n in 0..cells.len() {
        put(&mut lists, root(forest, n), cells[n])?;
    }
    Ok(lists)
}

/// The lists that have a cell, as sets.
fn some_of(alloc: Global, lists: Vec<Vec<(i32, i32)>>) -> Result<Vec<CellList>, AllocError>
    requires rising { All (λ list. T (is_rising list.items)) lists.items }
    requires placed { All (λ list. All IsPlace list.items) lists.items }
    ensures { IfOk result (λ sets. sets.items ≡ some_of (lists_of lists.items)) }
{
    let mut sets = Vec::new(alloc);
    for cells in lists {
        if !cells.is_empty() {
            sets.push(CellList::from_ordered(cells))?;
        }
    }
    Ok(sets)
}

/// The sets of cells whose places are joined, each once.
pub fn gathered(
    alloc: Global,
    list: &CellList,
    forest: &[usize],
) -> Result<Vec<CellList>, AllocError>
    requires { length forest.now ≡ length (cells list.now) }
    ensures { IfOk result (λ sets. AreThoseWithCells (joined_sets list.now forest.now) sets.items) }
{
    let lists = by_root(alloc, list.as_slice(), forest)?;
    some_of(alloc, lists)
}
