//! Giving cells the labels of others.
ghost use Rattle.std.specs.Prelude.{◌≡◌, ◌≤◌, IfOk, length};
ghost use Rattle.life_model.specs.Generation as generations;
ghost use Rattle.life_cells.specs.Limits.{IsPlace};
ghost use Rattle.life_classes.specs.Labels.{AreLabelled, IsTagged};
ghost use Rattle.life_classes.specs.Parted.{AreLabelsOr, AreOthers, IsLabelOr};

use crate::collecting::set_of;
use crate::forest::root;
use crate::labels::Labelled;
use crate::tags::{Tag, place_number, place_of};
use life_cells::CellList;
use std::alloc::{AllocError, Global};

/// The label of a cell, or another one if the cell has none.
#[inline(always)]
fn label_or(from: &Labelled, cell: (i32, i32), other: usize, cursor: &mut usize) -> usize
    requires tagged { IsTagged from.now }
    requires placed { IsPlace cell }
    requires within { cursor.old ≤ length from.now.tags.items }
    ensures within { cursor.new ≤ length from.now.tags.items }
    ensures label { IsLabelOr from.now other cell result }
{
    let tags = from.tags.as_slice();
    let number = place_number(cell);
    let at = place_of(tags, *cursor, number);
    *cursor = at;
    if at >= tags.len() {
        return other;
    }
    if tags[at].number > number {
        return other;
    }
    tags[at].label
}

/// The cells, each with its label, or with another one if it has none.
pub fn relabelled(
    alloc: Global,
    cells: CellList,
    from: &Labelled,
    other: usize,
) -> Result<Labelled, AllocError>
    requires tagged { IsTagged from.now }
    ensures cells { IfOk result (λ new. new.cells ≡ cells) }
    ensures tagged { IfOk result IsTagged }
    ensures labels { IfOk result (λ new. AreLabelsOr from.now other (generations.cells cells)
        (length (generations.cells cells)) new.tags.items) }
{
    let mut tags = Vec::with_capacity(alloc, cells.len())?;
    let mut cursor = 0;
    for cell in cells.as_slice() {
        let label = label_or(from, *cell, other, &mut cursor);
        tags.push(Tag {
            number: place_number(*cell),
            label,
        })?;
    }
    Ok(Labelled { cells, tags })
}

/// The cells whose labels have a root other than this one.
pub fn others_of(
    alloc: Global,
    forest: &[usize],
    cells: &Labelled,
    main: usize,
) -> Result<CellList, AllocError>
    requires { IsTagged cells.now }
    ensures { IfOk result (AreOthers cells.now forest.now main) }
{
    let mut items = Vec::new(alloc);
    let list = cells.cells.as_slice();
    for n in 0..list.len() {
        if root(forest, cells.tags[n].label) != main {
            items.push(list[n])?;
        }
    }
    let others = set_of(alloc, items.as_slice())?;
    Ok(others)
}
