//! The classes given by labels.
ghost use Rattle.std.specs.Prelude.{◌≡◌, ◌<◌, ◌==◌, ◌++◌, ◌∷◌, [], cond, All, IfOk, OnOk, get_or, length, replicate, set, vec_len};
ghost use Rattle.life_model.specs.Generation as generations;
ghost use Rattle.life_model.specs.Generation.{from_list};
ghost use Rattle.life_cells.specs.Limits.{IsPlace};
ghost use Rattle.life_classes.specs.Grouped.{by_roots, kept_classes, lists_of};
ghost use Rattle.life_classes.specs.Labels.{AreLabelled};

use crate::class::Class;
use crate::forest::root;
use crate::labels::Labelled;
use life_cells::{CellList, put_in_order};
use std::alloc::{AllocError, Global};

/// `count` empty lists.
fn empty_groups(alloc: Global, count: usize) -> Result<Vec<Vec<(i32, i32)>>, AllocError>
    ensures { IfOk result (λ all. lists_of all.items ≡ replicate count []) }
{
    let mut all = Vec::with_capacity(alloc, count)?;
    for _ in 0..count {
        all.push(Vec::new(alloc))?;
    }
    Ok(all)
}

/// Adds a cell to the list at a place.
fn give(all: &mut Vec<Vec<(i32, i32)>>, place: usize, cell: (i32, i32)) -> Result<(), AllocError>
    requires { place < vec_len all.old }
    ensures { OnOk result (lists_of all.new.items ≡
        set (lists_of all.old.items) place (get_or (lists_of all.old.items) place [] ++ (cell ∷ []))) }
{
    all[place].push(cell)?;
    Ok(())
}

/// The cells of each root, at the place of the root.
pub fn groups(
    alloc: Global,
    forest: &[usize],
    cells: &Labelled,
) -> Result<Vec<Vec<(i32, i32)>>, AllocError>
    requires { AreLabelled cells.now forest.now }
    ensures { IfOk result (λ all. lists_of all.items ≡
        by_roots (generations.cells cells.now.cells) cells.now.tags.items forest.now) }
{
    let mut all = empty_groups(alloc, forest.len())?;
    let list = cells.cells.as_slice();
    for n in 0..list.len() {
        give(&mut all, root(forest, cells.tags[n].label), list[n])?;
    }
    Ok(all)
}

/// The set of these cells.
pub fn set_of(alloc: Global, cells: &[(i32, i32)]) -> Result<CellList, AllocError>
    requires { All IsPlace cells.now }
    ensures { IfOk result (λ list. list ≡ from_list cells.now) }
{
    let mut items = cells.to_vec(alloc)?;
    put_in_order(&mut items);
    Ok(CellList::from_ordered(items))
}

/// Adds the class of these cells, if it has a cell at first.
fn add_class(
    alloc: Global,
    all: &mut Vec<Class>,
    first: &[(i32, i32)],
    last: &[(i32, i32)],
) -> Result<(), AllocError>
    requires first { All IsPlace first.now }
    requires last { All IsPlace last.now }
    ensures { OnOk result (all.new.items ≡ all.old.items ++ cond (length first.now == 0) []
        (record { first = from_list first.now; last = from_list last.now } ∷ [])) }
{
    if first.len() == 0 {
        return Ok(());
    }
    all.push(Class {
        first: set_of(alloc, first)?,
        last: set_of(alloc, last)?,
    })?;
    Ok(())
}

/// The classes of the roots, from the labels of the first cells and of the cells that they have become.
pub fn collected(
    alloc: Global,
    forest: &[usize],
    first: &Labelled,
    last: &Labelled,
) -> Result<Vec<Class>, AllocError>
    requires first { AreLabelled first.now forest.now }
    requires last { AreLabelled last.now forest.now }
    ensures { IfOk result (λ all. all.items ≡ kept_classes first.now last.now forest.now (length forest.now)) }
{
    let firsts = groups(alloc, forest, first)?;
    let lasts = groups(alloc, forest, last)?;
    let mut all = Vec::new(alloc);
    for n in 0..forest.len() {
        add_class(alloc, &mut all, firsts[n].as_slice(), lasts[n].as_slice())?;
    }
    Ok(all)
}
