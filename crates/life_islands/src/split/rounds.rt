//! Rounds over one period, in which cells that belong together are joined.
ghost use Rattle.std.specs.Prelude.{◌≡◌, ℕ, suc, ◌-◌, ◌<◌, ◌≤◌, Bool, IfOk, ◌||◌, false, true, length};
ghost use Rattle.std.specs.List.{sum};
ghost use Rattle.life_model.specs.Cell.{origin};
ghost use Rattle.life_model.specs.Evolution.{generation};
ghost use Rattle.life_model.specs.Generation.{cells};
ghost use Rattle.life_parts.specs.Parts.Apart.{AreHeldApart};
ghost use Rattle.std.specs.Bool.{OnTrue};
ghost use Rattle.life_classes.specs.Forest.{root};
ghost use Rattle.life_islands.specs.Heirs.{AreHeirs};
ghost use Rattle.life_islands.specs.Labels.{Fits, sets_of};
ghost use Rattle.life_islands.specs.Split.Rounds.{AreJoinedTied, AreParted, HaveWalked};

use crate::ends::join_ends;
use crate::inheriting::heirs;
use crate::labels::{Labels, numbers};
use crate::places::join_in;
use life_classes::root;
use life_orbit::Orbit;
use std::alloc::{AllocError, Global};

/// The cells of a set that a round joins, by their places, and whether something new was joined after the first generation.
#[derive(Drop)]
struct Round {
    forest: Vec<usize>,
    is_joined: bool,
}

/// The labels of the first generation, joined as that generation joins them.
fn begun(alloc: Global, orbit: &Orbit, forest: Vec<usize>) -> Result<Labels, AllocError>
    requires { AreJoinedTied orbit.now.rule orbit.now.set forest.items }
    ensures walked { IfOk result (λ sets. HaveWalked orbit.now.rule orbit.now.set 0 sets false) }
    ensures less { IfOk result (λ sets. sum sets.forest.items ≤ sum forest.items) }
{
    let rule = orbit.rule();
    let labels = numbers(alloc, orbit.set().len())?;
    let mut sets = Labels { labels, forest };
    join_in(alloc, &rule, orbit.set(), &mut sets)?;
    Ok(sets)
}

/// The labels of a generation after the first, before anything is joined in it.
fn later(alloc: Global, orbit: &Orbit, n: u32, sets: Labels) -> Result<Labels, AllocError>
    requires phase { 1 ≤ n × n < orbit.now.period }
    requires fits { Fits (generation orbit.now.rule orbit.now.set (n - 1)) sets }
    requires held { AreHeldApart orbit.now.rule (generation orbit.now.rule orbit.now.set (n - 1))
        (sets_of (generation orbit.now.rule orbit.now.set (n - 1)) sets) }
    ensures fits { IfOk result (Fits (generation orbit.now.rule orbit.now.set n)) }
    ensures forest { IfOk result (λ all. all.forest ≡ sets.forest) }
    ensures heirs { IfOk result (AreHeirs orbit.now.rule (generation orbit.now.rule orbit.now.set (n - 1)) sets origin
        (generation orbit.now.rule orbit.now.set n)) }
{
    let rule = orbit.rule();
    heirs(
        alloc,
        &rule,
        orbit.phase(n - 1),
        sets,
        orbit.phase(n),
        (0, 0),
    )
}

/// The labels a period later, before anything is joined. The cells then are those of the set, moved.
fn ended(alloc: Global, orbit: &Orbit, sets: Labels) -> Result<Labels, AllocError>
    requires fits { Fits (generation orbit.now.rule orbit.now.set (orbit.now.period - 1)) sets }
    requires held { AreHeldApart orbit.now.rule (generation orbit.now.rule orbit.now.set (orbit.now.period - 1))
        (sets_of (generation orbit.now.rule orbit.now.set (orbit.now.period - 1)) sets) }
    ensures fits { IfOk result (Fits orbit.now.set) }
    ensures forest { IfOk result (λ all. all.forest ≡ sets.forest) }
    ensures heirs { IfOk result (AreHeirs orbit.now.rule
        (generation orbit.now.rule orbit.now.set (orbit.now.period - 1)) sets orbit.now.displacement orbit.now.set) }
{
    let rule = orbit.rule();
    let last = orbit.phase(orbit.period() - 1);
    heirs(alloc, &rule, last, sets, orbit.set(), orbit.displacement())
}

/// True if all numbers are joined.
fn are_all_joined(forest: &[usize]) -> bool
    ensures { OnTrue result ((k : ℕ) → k < length forest.now → root forest.now k ≡ root forest.now 0) }
{
    for n in 1..forest.len() {
        if root(forest, n) != root(forest, 0) {
            return false;
        }
    }
    true
}

/// The cells that are joined after one more round, starting from those that are joined already. The round ends once all are
/// joined.
fn joined_once(alloc: Global, orbit: &Orbit, forest: Vec<usize>) -> Result<Round, AllocError>
    requires { AreJoinedTied orbit.now.rule orbit.now.set forest.items }
    ensures tied { IfOk result (λ one. AreJoinedTied orbit.now.rule orbit.now.set one.forest.items) }
    ensures no_more { IfOk result (λ one. sum one.forest.items ≤ sum forest.items) }
    ensures less { IfOk result (λ one. one.is_joined ≡ true → sum one.forest.items < sum forest.items) }
    ensures parted { IfOk result (λ one. one.is_joined ≡ false →
        AreParted orbit.now.rule orbit.now.set one.forest.items) }
{
    let rule = orbit.rule();
    let mut sets = begun(alloc, orbit, forest)?;
    let mut is_joined = false;
    for n in 1..orbit.period() {
        if are_all_joined(sets.forest.as_slice()) {
            return Ok(Round {
                forest: sets.forest,
                is_joined: false,
            });
        }
        sets = later(alloc, orbit, n, sets)?;
        if join_in(alloc, &rule, orbit.phase(n), &mut sets)? {
            is_joined = true;
        }
    }
    let mut ends = ended(alloc, orbit, sets)?;
    if join_ends(alloc, &mut ends)? {
        is_joined = true;
    }
    Ok(Round {
        forest: ends.forest,
        is_joined,
    })
}

/// The cells of an orbit's set, by their places, joined where they belong together.
pub fn joined_for_good(alloc: Global, orbit: &Orbit) -> Result<Vec<usize>, AllocError>
    ensures long { IfOk result (λ forest. length forest.items ≡ length (cells orbit.now.set)) }
    ensures parted { IfOk result (λ forest. AreParted orbit.now.rule orbit.now.set forest.items) }
{
    let first = numbers(alloc, orbit.set().len())?;
    let mut one = joined_once(alloc, orbit, first)?;
    while one.is_joined {
        one = joined_once(alloc, orbit, one.forest)?;
    }
    Ok(one.forest)
}
