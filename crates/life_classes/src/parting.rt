//! The class with most of the cells, followed by itself.
ghost use Rattle.std.specs.Prelude.{◌≡◌, ◌≤◌, ◌<◌, All, IfOk, IfSome, length};
ghost use Rattle.life_model.specs.Generation as generations;
ghost use Rattle.life_cells.specs.Limits.{IsWithin};
ghost use Rattle.life_objects.specs.Union.{union};
ghost use Rattle.life_classes.specs.Labels.{AreLabelled, IsTagged, cells_of_root};
ghost use Rattle.life_classes.specs.Parted.{AreLabelsOr, IsParted, IsRest, classes_beside};
ghost use Rattle.life_classes.specs.Splits.{IsLabelledSplit, classes_of_split};
ghost use Rattle.life_classes.specs.Tracking.{AreApartNow, LeadTo};

use crate::collecting::{groups, set_of};
use crate::joining::join_near;
use crate::labels::Labelled;
use crate::relabelling::{others_of, relabelled};
use crate::split::Split;
use crate::unions::union;
use life_cells::CellList;
use life_plane::{AGE_LIMIT, Plane};
use std::alloc::{AllocError, Global};

/// A class, as its first cells and a plane of the cells that they have become, and the other classes with a plane of
/// their own.
#[derive(Drop)]
pub struct Parted<P> {
    pub first: CellList,
    pub herd: P,
    pub rest: Split,
    pub others: P,
}

/// Classes with a plane of their cells, and the number of generations made.
#[derive(Drop)]
pub struct Walk<P> {
    pub split: Split,
    pub plane: P,
    pub made: u32,
}

/// The place of a list that has more than three quarters of `count` cells, if there is one.
fn longest(lists: &[Vec<(i32, i32)>], count: usize) -> Option<usize>
    ensures { IfSome result (λ n. n < length lists.now) }
{
    for n in 0..lists.len() {
        if lists[n].len() > count - count / 4 {
            return Some(n);
        }
    }
    None
}

/// The root that more than three quarters of the cells have, if there is one.
pub fn main_root(
    alloc: Global,
    forest: &[usize],
    cells: &Labelled,
) -> Result<Option<usize>, AllocError>
    requires { AreLabelled cells.now forest.now }
    ensures { IfOk result (λ main. IfSome main (λ n. n < length forest.now)) }
{
    let lists = groups(alloc, forest, cells)?;
    Ok(longest(lists.as_slice(), cells.tags.len()))
}

/// The cells whose labels have this root.
fn cells_of(
    alloc: Global,
    forest: &[usize],
    cells: &Labelled,
    main: usize,
) -> Result<CellList, AllocError>
    requires labelled { AreLabelled cells.now forest.now }
    requires within { main < length forest.now }
    ensures { IfOk result (λ list. list ≡ generations.from_list (cells_of_root cells.now forest.now main)) }
{
    let lists = groups(alloc, forest, cells)?;
    let list = set_of(alloc, lists[main].as_slice())?;
    Ok(list)
}

/// The cells with other roots, with their labels.
fn rest_of(
    alloc: Global,
    forest: &[usize],
    cells: &Labelled,
    main: usize,
) -> Result<Labelled, AllocError>
    requires labelled { AreLabelled cells.now forest.now }
    requires within { main < length forest.now }
    ensures labelled { IfOk result (λ rest. AreLabelled rest forest.now) }
    ensures rest { IfOk result (λ rest. IsRest cells.now rest forest.now main) }
{
    let others = others_of(alloc, forest, cells, main)?;
    let rest = relabelled(alloc, others, cells, main)?;
    Ok(rest)
}

/// The class of a root parted from the others, with planes of this age.
pub fn parted_off<P: Plane>(
    alloc: Global,
    split: Split,
    main: usize,
    age: u32,
) -> Result<Parted<P>, AllocError>
    requires labelled { IsLabelledSplit split }
    requires within { main < length split.forest.items }
    requires age { age ≤ AGE_LIMIT }
    requires placed { All (IsWithin age) (generations.cells split.last.cells) }
    ensures parted { IfOk result (λ p. IsParted p.first (P.members p.herd) p.rest) }
    ensures others { IfOk result (λ p. p.rest.last.cells ≡ P.members p.others) }
    ensures led { IfOk result
        (λ p. LeadTo (classes_of_split split) (classes_beside p.first (P.members p.herd) p.rest)) }
    ensures aged { IfOk result (λ p. (P.steps_made p.herd ≡ age) × (P.steps_made p.others ≡ age)) }
{
    let mut forest = split.forest;
    let first = cells_of(alloc, forest.as_slice(), &split.first, main)?;
    let last = cells_of(alloc, forest.as_slice(), &split.last, main)?;
    let rest_first = rest_of(alloc, forest.as_slice(), &split.first, main)?;
    let rest_last = rest_of(alloc, forest.as_slice(), &split.last, main)?;
    join_near(&mut forest, &rest_last);
    let herd = P::at_age(alloc, &last, age)?;
    let others = P::at_age(alloc, &rest_last.cells, age)?;
    Ok(Parted {
        first,
        herd,
        rest: Split {
            first: rest_first,
            last: rest_last,
            forest,
        },
        others,
    })
}

/// The cells of both, those of the herd with this label.
fn with_herd(
    alloc: Global,
    herd: &CellList,
    rest: &Labelled,
    label: usize,
) -> Result<Labelled, AllocError>
    requires { IsTagged rest.now }
    ensures cells { IfOk result (λ all. all.cells ≡ union herd.now rest.now.cells) }
    ensures tagged { IfOk result IsTagged }
    ensures labels { IfOk result (λ all. AreLabelsOr rest.now label (generations.cells all.cells)
        (length (generations.cells all.cells)) all.tags.items) }
{
    let cells = union(alloc, herd, &rest.cells)?;
    let all = relabelled(alloc, cells, rest, label)?;
    Ok(all)
}

/// The age of both planes.
fn age_of<P: Plane>(parted: &Parted<P>) -> u32
    requires { P.steps_made parted.now.others ≡ P.steps_made parted.now.herd }
    ensures age { result ≡ P.steps_made parted.now.herd }
    ensures herd { All (IsWithin (P.steps_made parted.now.herd)) (generations.cells (P.members parted.now.herd)) }
    ensures others { All (IsWithin (P.steps_made parted.now.others)) (generations.cells (P.members parted.now.others)) }
{
    let age = parted.herd.age();
    let other = parted.others.age();
    if other < age {
        return other;
    }
    age
}

/// All classes together again, the herd's with a label of its own. Classes that are near each other are joined.
pub fn fell_back<P: Plane>(
    alloc: Global,
    parted: Parted<P>,
    made: u32,
) -> Result<Walk<P>, AllocError>
    requires parted { IsParted parted.first (P.members parted.herd) parted.rest }
    requires others { parted.rest.last.cells ≡ P.members parted.others }
    requires alike { P.steps_made parted.others ≡ P.steps_made parted.herd }
    requires young { P.steps_made parted.herd ≤ AGE_LIMIT }
    ensures labelled { IfOk result (λ walk. IsLabelledSplit walk.split) }
    ensures led { IfOk result (λ walk. LeadTo
        (classes_beside parted.first (P.members parted.herd) parted.rest) (classes_of_split walk.split)) }
    ensures apart { IfOk result (λ walk. AreApartNow (classes_of_split walk.split)) }
    ensures cells { IfOk result (λ walk. walk.split.last.cells ≡ P.members walk.plane) }
    ensures aged { IfOk result (λ walk. P.steps_made walk.plane ≡ P.steps_made parted.herd) }
    ensures made { IfOk result (λ walk. walk.made ≡ made) }
{
    let age = age_of(&parted);
    let herd = parted.herd.cells()?;
    let rest = parted.rest;
    let label = rest.forest.len();
    let first = with_herd(alloc, &parted.first, &rest.first, label)?;
    let last = with_herd(alloc, &herd, &rest.last, label)?;
    let mut forest = rest.forest;
    forest.push(label)?;
    join_near(&mut forest, &last);
    let plane = P::at_age(alloc, &last.cells, age)?;
    let split = Split {
        first,
        last,
        forest,
    };
    Ok(Walk { split, plane, made })
}
