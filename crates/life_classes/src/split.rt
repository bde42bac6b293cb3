//! A pattern's cells with labels, and the same a generation later.
ghost use Rattle.std.specs.Prelude.{◌≡◌, ◌↔◌, ℕ, IfOk, IsTrue, length, map};
ghost use Rattle.life_model.specs.Generation as generation_sets;
ghost use Rattle.life_classes.specs.Forest.{root};
ghost use Rattle.life_classes.specs.Labels.{AreReached};
ghost use Rattle.life_classes.specs.Splits.{IsLabelledSplit, classes_of_split};
ghost use Rattle.life_classes.specs.Tracking.{AreApartNow, AreFew, LeadTo, class_of_cell, moved_on};

use crate::inheriting::inherited;
use crate::joining::{join_born, join_near};
use crate::labels::{Labelled, first_labels, have_one_root};
use life_cells::CellList;
use std::alloc::{AllocError, Global};

/// The first cells of a pattern and the cells that they have become, with labels, and a forest that joins the labels.
#[derive(Drop)]
pub struct Split {
    pub first: Labelled,
    pub last: Labelled,
    pub forest: Vec<usize>,
}

/// The numbers below `count`, each of which is a root.
fn roots(alloc: Global, count: usize) -> Result<Vec<usize>, AllocError>
    ensures long { IfOk result (λ forest. length forest.items ≡ count) }
    ensures roots { IfOk result (λ forest. (k : ℕ) → root forest.items k ≡ k) }
{
    let mut forest = Vec::with_capacity(alloc, count)?;
    for n in 0..count {
        forest.push(n)?;
    }
    Ok(forest)
}

/// The cells in classes of those that are near each other. The caller passes the list twice.
pub fn first_split(alloc: Global, first: CellList, last: CellList) -> Result<Split, AllocError>
    requires { last ≡ first }
    ensures first { IfOk result (λ split. split.first.cells ≡ first) }
    ensures cells { IfOk result (λ split. split.last.cells ≡ first) }
    ensures labelled { IfOk result IsLabelledSplit }
    ensures tracked { IfOk result
        (λ split. LeadTo (map class_of_cell (generation_sets.cells first)) (classes_of_split split)) }
    ensures apart { IfOk result (λ split. AreApartNow (classes_of_split split)) }
{
    let mut forest = roots(alloc, first.as_slice().len())?;
    let first = first_labels(alloc, first)?;
    let last = first_labels(alloc, last)?;
    join_near(&mut forest, &last);
    Ok(Split {
        first,
        last,
        forest,
    })
}

/// The classes a generation later, if `cells` are all cells of that generation. Classes that are near each other are
/// joined.
pub fn followed(alloc: Global, split: Split, cells: CellList) -> Result<Split, AllocError>
    requires labelled { IsLabelledSplit split }
    requires apart { AreApartNow (classes_of_split split) }
    requires reached { AreReached split.last cells }
    ensures first { IfOk result (λ later. later.first ≡ split.first) }
    ensures cells { IfOk result (λ later. later.last.cells ≡ cells) }
    ensures labelled { IfOk result IsLabelledSplit }
    ensures tracked { IfOk result
        (λ later. LeadTo (map (moved_on cells) (classes_of_split split)) (classes_of_split later)) }
    ensures apart { IfOk result (λ later. AreApartNow (classes_of_split later)) }
{
    let mut forest = split.forest;
    let heirs = inherited(alloc, &split.last, forest.as_slice(), cells)?;
    join_born(&mut forest, &heirs.cells, heirs.born.as_slice());
    Ok(Split {
        first: split.first,
        last: heirs.cells,
        forest,
    })
}

/// True if at most one of the classes has a cell left.
pub fn are_few(split: &Split) -> bool
    requires { IsLabelledSplit split.now }
    ensures { IsTrue result ↔ AreFew (classes_of_split split.now) }
{
    have_one_root(split.forest.as_slice(), &split.last)
}
