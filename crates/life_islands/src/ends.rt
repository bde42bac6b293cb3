//! The labels a period later.
ghost use Rattle.std.specs.Prelude.{◌≡◌, ℕ, ◌<◌, All, IfOk, List, OnOk, false, get_or, length, map};
ghost use Rattle.std.specs.Prelude.{Ok};
ghost use Rattle.life_model.specs.Cell.{Cell, origin};
ghost use Rattle.life_model.specs.Generation.{Generation};
ghost use Rattle.life_model.specs.Rule.{Rule};
ghost use Rattle.life_parts.specs.Parts.Ties.{AreTied};
ghost use Rattle.life_classes.specs.Forest.{root};
ghost use Rattle.life_islands.specs.Labels.{AreJoinedFurther, AreTiedFirsts};

use crate::labels::Labels;
use life_classes::{join, root};
use std::alloc::{AllocError, Global};

/// The roots of all labels.
fn marks(alloc: Global, ends: &Labels) -> Result<Vec<usize>, AllocError>
    ensures { IfOk result (λ all. all.items ≡ map (root ends.now.forest.items) ends.now.labels.items) }
{
    let mut all = Vec::with_capacity(alloc, ends.labels.len())?;
    for label in ends.labels.as_slice() {
        all.push(root(ends.forest.as_slice(), *label))?;
    }
    Ok(all)
}

/// Joins the places of labels that have one root, each with the first of them. Returns false if they were joined already.
pub fn join_ends(alloc: Global, ends: &mut Labels) -> Result<bool, AllocError>
    requires long { length ends.old.labels.items ≡ length ends.old.forest.items }
    requires below { All (λ l. l < length ends.old.forest.items) ends.old.labels.items }
    ensures further { IfOk result (AreJoinedFurther ends.old ends.new) }
    // The places that are joined are of tied cells, if the places of labels with one root are.
    ensures tied { (R : Rule) (P : Generation) (firsts : List Cell) →
        ((m k : ℕ) → m < length ends.old.labels.items → k < length ends.old.labels.items →
        root ends.old.forest.items (get_or ends.old.labels.items m 0) ≡ root ends.old.forest.items (get_or ends.old.labels.items k 0) →
        AreTied R P 0 (get_or firsts m origin) 0 (get_or firsts k origin)) →
        AreTiedFirsts R P firsts ends.old.forest.items → AreTiedFirsts R P firsts ends.new.forest.items }
    ensures ended { result ≡ Ok false → (m k : ℕ) → m < length ends.old.labels.items → k < length ends.old.labels.items →
        root ends.old.forest.items (get_or ends.old.labels.items m 0) ≡ root ends.old.forest.items (get_or ends.old.labels.items k 0) →
        root ends.old.forest.items m ≡ root ends.old.forest.items k }
{
    let count = ends.labels.len();
    let marks = marks(alloc, ends)?;
    let mut firsts = vec![in alloc; count; count]?;
    let mut joined = false;
    for n in 0..count {
        let first = firsts[marks[n]];
        if first == count {
            firsts[marks[n]] = n;
        } else if join(&mut ends.forest, n, first) {
            joined = true;
        }
    }
    Ok(joined)
}
