//! Classes that are followed for many generations, the one with most of the cells by itself.
ghost use Rattle.std.specs.Prelude.{◌≡◌, ◌≤◌, ◌<◌, ◌+◌, IfOk, IsTrue};
ghost use Rattle.life_objects.specs.Apart.{AreApart};
ghost use Rattle.life_classes.specs.Parted.{IsParted, LeadFor, classes_beside};
ghost use Rattle.life_classes.specs.Splits.{IsLabelledSplit, classes_of_split};
ghost use Rattle.life_classes.specs.Tracking.{AreApartNow};

use crate::nearness::reaches_any;
use crate::parting::{Parted, Walk, fell_back, main_root, parted_off};
use crate::split::{Split, followed};
use life_cells::Rule;
use life_plane::{AGE_LIMIT, Plane};
use std::alloc::{AllocError, Global};

/// Classes, one of which is followed by itself, and the number of generations made.
#[derive(Drop)]
struct Far<P> {
    parted: Parted<P>,
    made: u32,
}

/// True if no cell of the rest is near one of the herd, and the rest has at most half as many cells as the herd.
fn is_apart<P: Plane>(parted: &Parted<P>) -> Result<bool, AllocError>
    ensures { IfOk result
        (λ is. IsTrue is → AreApart (P.members parted.now.herd) parted.now.rest.last.cells) }
{
    let rest = parted.rest.last.cells.as_slice();
    if rest.len() == 0 {
        return Ok(true);
    }
    let herd = parted.herd.cells()?;
    if herd.len() / 2 < rest.len() {
        return Ok(false);
    }
    Ok(!reaches_any(2, &herd, rest))
}

/// The classes a generation later, if no cell of the rest is near one of the herd.
fn stepped_apart<P: Plane>(
    alloc: Global,
    parted: Parted<P>,
    rule: &Rule,
) -> Result<Parted<P>, AllocError>
    requires parted { IsParted parted.first (P.members parted.herd) parted.rest }
    requires others { parted.rest.last.cells ≡ P.members parted.others }
    requires apart { AreApart (P.members parted.herd) parted.rest.last.cells }
    requires alike { P.steps_made parted.others ≡ P.steps_made parted.herd }
    requires young { P.steps_made parted.herd < AGE_LIMIT }
    ensures parted { IfOk result (λ later. IsParted later.first (P.members later.herd) later.rest) }
    ensures others { IfOk result (λ later. later.rest.last.cells ≡ P.members later.others) }
    ensures led { IfOk result (λ later. LeadFor rule.now 1
        (classes_beside parted.first (P.members parted.herd) parted.rest)
        (classes_beside later.first (P.members later.herd) later.rest)) }
    ensures alike { IfOk result (λ later. P.steps_made later.others ≡ P.steps_made later.herd) }
    ensures aged { IfOk result (λ later. P.steps_made later.herd ≡ P.steps_made parted.herd + 1) }
{
    let mut herd = parted.herd;
    let mut others = parted.others;
    herd.step(rule)?;
    others.step(rule)?;
    let cells = others.cells()?;
    let rest = followed(alloc, parted.rest, cells)?;
    Ok(Parted {
        first: parted.first,
        herd,
        rest,
        others,
    })
}

/// The classes at most `limit` generations later. The walk ends when cells of the rest come near the herd.
fn walked_apart<P: Plane>(
    alloc: Global,
    parted: Parted<P>,
    rule: &Rule,
    limit: u32,
) -> Result<Far<P>, AllocError>
    requires parted { IsParted parted.first (P.members parted.herd) parted.rest }
    requires others { parted.rest.last.cells ≡ P.members parted.others }
    requires alike { P.steps_made parted.others ≡ P.steps_made parted.herd }
    requires young { P.steps_made parted.herd + limit ≤ AGE_LIMIT }
    ensures parted { IfOk result
        (λ far. IsParted far.parted.first (P.members far.parted.herd) far.parted.rest) }
    ensures others { IfOk result (λ far. far.parted.rest.last.cells ≡ P.members far.parted.others) }
    ensures led { IfOk result (λ far. LeadFor rule.now far.made
        (classes_beside parted.first (P.members parted.herd) parted.rest)
        (classes_beside far.parted.first (P.members far.parted.herd) far.parted.rest)) }
    ensures alike { IfOk result
        (λ far. P.steps_made far.parted.others ≡ P.steps_made far.parted.herd) }
    ensures aged { IfOk result
        (λ far. P.steps_made far.parted.herd ≡ P.steps_made parted.herd + far.made) }
    ensures made { IfOk result (λ far. far.made ≤ limit) }
{
    let mut parted = parted;
    for made in 0..limit {
        if !is_apart(&parted)? {
            return Ok(Far { parted, made });
        }
        parted = stepped_apart(alloc, parted, rule)?;
    }
    Ok(Far {
        parted,
        made: limit,
    })
}

/// The classes at most `limit` generations later. The walk goes on while a class with most of the cells stays away from
/// the others.
fn walked_off<P: Plane>(
    alloc: Global,
    split: Split,
    plane: P,
    rule: &Rule,
    limit: u32,
) -> Result<Walk<P>, AllocError>
    requires labelled { IsLabelledSplit split }
    requires cells { split.last.cells ≡ P.members plane }
    requires apart { AreApartNow (classes_of_split split) }
    requires young { P.steps_made plane + limit ≤ AGE_LIMIT }
    ensures labelled { IfOk result (λ walk. IsLabelledSplit walk.split) }
    ensures cells { IfOk result (λ walk. walk.split.last.cells ≡ P.members walk.plane) }
    ensures apart { IfOk result (λ walk. AreApartNow (classes_of_split walk.split)) }
    ensures led { IfOk result
        (λ walk. LeadFor rule.now walk.made (classes_of_split split) (classes_of_split walk.split)) }
    ensures aged { IfOk result (λ walk. P.steps_made walk.plane ≡ P.steps_made plane + walk.made) }
    ensures made { IfOk result (λ walk. walk.made ≤ limit) }
{
    match main_root(alloc, split.forest.as_slice(), &split.last)? {
        None => Ok(Walk {
            split,
            plane,
            made: 0,
        }),
        Some(main) => {
            let parted = parted_off(alloc, split, main, plane.age())?;
            let far = walked_apart(alloc, parted, rule, limit)?;
            let walk = fell_back(alloc, far.parted, far.made)?;
            Ok(walk)
        }
    }
}

/// The classes a generation later.
fn one_later<P: Plane>(
    alloc: Global,
    split: Split,
    plane: P,
    rule: &Rule,
) -> Result<Walk<P>, AllocError>
    requires labelled { IsLabelledSplit split }
    requires cells { split.last.cells ≡ P.members plane }
    requires apart { AreApartNow (classes_of_split split) }
    requires young { P.steps_made plane < AGE_LIMIT }
    ensures labelled { IfOk result (λ walk. IsLabelledSplit walk.split) }
    ensures cells { IfOk result (λ walk. walk.split.last.cells ≡ P.members walk.plane) }
    ensures apart { IfOk result (λ walk. AreApartNow (classes_of_split walk.split)) }
    ensures led { IfOk result
        (λ walk. LeadFor rule.now 1 (classes_of_split split) (classes_of_split walk.split)) }
    ensures aged { IfOk result (λ walk. P.steps_made walk.plane ≡ P.steps_made plane + 1) }
    ensures made { IfOk result (λ walk. walk.made ≡ 1) }
{
    let mut plane = plane;
    plane.step(rule)?;
    let cells = plane.cells()?;
    let later = followed(alloc, split, cells)?;
    Ok(Walk {
        split: later,
        plane,
        made: 1,
    })
}

/// The classes a generation later, or many generations later if it is time to try that.
pub fn onward<P: Plane>(
    alloc: Global,
    split: Split,
    plane: P,
    rule: &Rule,
    limit: u32,
    is_time: bool,
) -> Result<Walk<P>, AllocError>
    requires labelled { IsLabelledSplit split }
    requires cells { split.last.cells ≡ P.members plane }
    requires apart { AreApartNow (classes_of_split split) }
    requires young { P.steps_made plane + limit ≤ AGE_LIMIT }
    requires some { 0 < limit }
    ensures labelled { IfOk result (λ walk. IsLabelledSplit walk.split) }
    ensures cells { IfOk result (λ walk. walk.split.last.cells ≡ P.members walk.plane) }
    ensures apart { IfOk result (λ walk. AreApartNow (classes_of_split walk.split)) }
    ensures led { IfOk result
        (λ walk. LeadFor rule.now walk.made (classes_of_split split) (classes_of_split walk.split)) }
    ensures aged { IfOk result (λ walk. P.steps_made walk.plane ≡ P.steps_made plane + walk.made) }
    ensures some { IfOk result (λ walk. 0 < walk.made) }
    ensures made { IfOk result (λ walk. walk.made ≤ limit) }
{
    if !is_time {
        let walk = one_later(alloc, split, plane, rule)?;
        return Ok(walk);
    }
    let far = walked_off(alloc, split, plane, rule, limit)?;
    if far.made > 0 {
        return Ok(far);
    }
    let walk = one_later(alloc, far.split, far.plane, rule)?;
    Ok(walk)
}
