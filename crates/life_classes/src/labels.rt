//! Cells in order, each with a label.
ghost use Rattle.std.specs.Prelude.{◌≡◌, ℕ, ◌<◌, ◌↔◌, All, IfOk, IsTrue, List, get_or, length};
ghost use Rattle.life_model.specs.Generation as generations;
ghost use Rattle.life_classes.specs.declared.tags.Tag.{Tag as ModelTag};
ghost use Rattle.life_classes.specs.Forest.{root};
ghost use Rattle.life_classes.specs.Labels.{AreLabelled, HasOneRoot, IsTagged};
ghost use Rattle.life_classes.specs.Tags.{AreOwnLabels};

use crate::forest::root;
use crate::tags::{Tag, place_number, tagged};
use life_cells::CellList;
use std::alloc::{AllocError, Global};

/// Cells, and a tag for each, in the same order.
#[derive(Drop)]
pub struct Labelled {
    pub cells: CellList,
    pub tags: Vec<Tag>,
}

/// The cells, each with its place as its label.
pub fn first_labels(alloc: Global, cells: CellList) -> Result<Labelled, AllocError>
    ensures cells { IfOk result (λ all. all.cells ≡ cells) }
    ensures labelled { IfOk result
        (λ all. (f : List ℕ) → length f ≡ length (generations.cells cells) → AreLabelled all f) }
    ensures own { IfOk result (λ all. AreOwnLabels (length all.tags.items) all.tags.items) }
{
    let tags = tagged(alloc, cells.as_slice())?;
    Ok(Labelled { cells, tags })
}

/// The cells, all with one label.
pub fn labelled_alike(alloc: Global, cells: CellList, label: usize) -> Result<Labelled, AllocError>
    ensures cells { IfOk result (λ all. all.cells ≡ cells) }
    ensures tagged { IfOk result IsTagged }
    ensures alike { IfOk result (λ all. All (λ t. t.label ≡ label) all.tags.items) }
{
    let mut tags = Vec::with_capacity(alloc, cells.len())?;
    for cell in cells.as_slice() {
        tags.push(Tag {
            number: place_number(*cell),
            label,
        })?;
    }
    Ok(Labelled { cells, tags })
}

/// The label of the first of the cells, or 0 if there is none.
pub fn first_label(cells: &Labelled) -> usize
    ensures { (d : ModelTag) → 0 < length cells.now.tags.items →
        result ≡ (get_or cells.now.tags.items 0 d).label }
{
    if cells.tags.is_empty() {
        return 0;
    }
    cells.tags[0].label
}

/// True if two labels have one root.
#[inline(always)]
fn are_joined(forest: &[usize], one: usize, other: usize) -> bool
    ensures { IsTrue result ↔ (root forest.now one ≡ root forest.now other) }
{
    one == other || root(forest, one) == root(forest, other)
}

/// True if the labels of the cells have one root.
pub fn have_one_root(forest: &[usize], cells: &Labelled) -> bool
    ensures { IsTrue result ↔ HasOneRoot cells.now.tags.items forest.now }
{
    let tags = cells.tags.as_slice();
    for n in 1..tags.len() {
        if !are_joined(forest, tags[n].label, tags[0].label) {
            return false;
        }
    }
    true
}
