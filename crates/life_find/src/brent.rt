//! Brent's cycle finding: the walk along the generations of a pattern, until one of them recurs. Each generation is compared with
//! an anchor, which is moved on at the powers of two (R. P. Brent, An improved Monte Carlo factorization algorithm, 1980).
ghost use Rattle.std.specs.Prelude.{◌≡◌, ℕ, ◌+◌, ◌*◌, ◌<◌, ◌≤◌, ◌++◌, IfNone, IfOk, IfSome, OnOk, [], ◌∷◌, length};
ghost use Rattle.life_model.specs.Evolution.{generation};
ghost use Rattle.life_model.specs.Generation.{Generation};
ghost use Rattle.life_model.specs.Recurrence.{SettlesAt};
ghost use Rattle.life_find.specs.Search.{AreFingerprints, IsReturn};

use crate::candidates::{candidates, strike_periods};
use crate::fingerprint::{Fingerprint, fingerprint_of};
use crate::limit::BOUND_LIMIT;
use crate::lookout::Lookout;
use crate::recurrence::Recurrence;
use life_advance::outgrows;
use life_cells::{CellList, Rule};
use life_plane::{AGE_LIMIT, Observer, Plane};
use std::alloc::{AllocError, Global};

/// The number of generations that are compared with the first one: most known oscillators and spaceships have no longer period.
const FIRST_LEAD: u32 = 64;

/// The span is determined once in this many generations, whatever the population is.
const SPAN_STEP: u32 = 16;

/// The number of fingerprints for which there is room from the first one on.
const FINGERPRINT_ROOM: usize = 16;

/// Records one more fingerprint.
fn note(fingerprints: &mut Vec<Fingerprint>, fingerprint: Fingerprint) -> Result<(), AllocError>
    ensures { OnOk result
        (fingerprints.new.items ≡ fingerprints.old.items ++ fingerprint ∷ []) }
{
    if fingerprints.is_empty() {
        fingerprints.reserve(FINGERPRINT_ROOM)?;
    }
    fingerprints.push(fingerprint)?;
    Ok(())
}

/// Makes at most `steps` steps, until the cells that the plane began with, which are listed, recur, and returns the number of
/// steps and the displacement. Records the fingerprints of the generations before the last two, or before the last if the cells
/// don't recur. So a pattern that recurs at once takes no room for them.
fn run_to_return<P: Plane, W: Observer>(
    observer: &W,
    runner: &mut P,
    listed: &CellList,
    rule: &Rule,
    steps: u32,
    fingerprints: &mut Vec<Fingerprint>,
) -> Result<Option<(u32, (i32, i32))>, AllocError>
    requires listed { listed.now ≡ P.members runner.old }
    requires steps { steps ≤ BOUND_LIMIT }
    requires young { P.steps_made runner.old + steps ≤ AGE_LIMIT }
    ensures found { IfOk result
        (λ answer. IfSome answer (λ r. IsReturn rule.now (P.members runner.old) r.0 r.1)) }
    ensures within { IfOk result (λ answer. IfSome answer (λ r. r.0 ≤ steps)) }
    ensures seen { IfOk result
        (λ answer. IfSome answer
        (λ r. P.members runner.new ≡ generation rule.now (P.members runner.old) r.0)) }
    ensures seen_age { IfOk result
        (λ answer. IfSome answer (λ r. P.steps_made runner.new ≡ P.steps_made runner.old + r.0)) }
    ensures there { IfOk result
        (λ answer. IfNone answer
        (P.members runner.new ≡ generation rule.now (P.members runner.old) steps)) }
    ensures age { IfOk result
        (λ answer. IfNone answer (P.steps_made runner.new ≡ P.steps_made runner.old + steps)) }
    ensures count { IfOk result
        (λ answer. IfNone answer
        (length fingerprints.new.items ≡ length fingerprints.old.items + steps)) }
    ensures fingerprints { OnOk result
        ((first : Generation) (age : ℕ) → P.members runner.old ≡ generation rule.now first age →
        length fingerprints.old.items ≡ age →
        AreFingerprints rule.now first fingerprints.old.items →
        AreFingerprints rule.now first fingerprints.new.items) }
{
    let marked = fingerprint_of(listed);
    let mut lookout = Lookout::new();
    let mut latest = marked;
    for taken in 0..steps {
        observer.reached(runner.age());
        runner.step(rule)?;
        let spanned = taken % SPAN_STEP == SPAN_STEP - 1;
        let sight = lookout.look(listed, marked, runner, taken, spanned)?;
        if let Some(displacement) = sight.offset {
            return Ok(Some((taken + 1, displacement)));
        }
        note(fingerprints, latest)?;
        latest = sight.fingerprint;
    }
    Ok(None)
}

/// The decision of the generations up to the bound, if they decide: a generation that recurs, or that none does within the bound,
/// as the cells grow too far apart. Each generation is compared with the one at the greatest power of two before it, and the
/// first few with the first.
fn find_return_within<P: Plane, W: Observer>(
    alloc: Global,
    observer: &W,
    runner: &mut P,
    cells: &CellList,
    rule: &Rule,
    bound: u32,
    fingerprints: &mut Vec<Fingerprint>,
) -> Result<Option<Option<Recurrence>>, AllocError>
    requires bound { 1 ≤ bound × bound ≤ BOUND_LIMIT }
    requires cells { cells.now ≡ P.members runner.old }
    requires new { P.steps_made runner.old ≡ 0 }
    requires none { fingerprints.old.items ≡ [] }
    ensures found { IfOk result
        (λ known. IfSome known (λ answer. IfSome answer
        (λ r. IsReturn rule.now (generation rule.now cells.now r.onset) r.period r.displacement))) }
    ensures onset { IfOk result
        (λ known. IfSome known (λ answer. IfSome answer (λ r. r.onset ≤ bound))) }
    ensures period { IfOk result
        (λ known. IfSome known (λ answer. IfSome answer (λ r. r.period ≤ bound))) }
    ensures seen { IfOk result
        (λ known. IfSome known (λ answer. IfSome answer
        (λ r. P.members runner.new ≡ generation rule.now cells.now (r.onset + r.period)))) }
    ensures seen_age { IfOk result
        (λ known. IfSome known (λ answer. IfSome answer
        (λ r. P.steps_made runner.new ≡ r.onset + r.period))) }
    ensures none { IfOk result
        (λ known. IfSome known (λ answer. IfNone answer
        ((g : ℕ) → SettlesAt rule.now cells.now bound g → ⊥))) }
    ensures there { IfOk result
        (λ known. IfNone known (P.members runner.new ≡ generation rule.now cells.now bound)) }
    ensures age { IfOk result (λ known. IfNone known (P.steps_made runner.new ≡ bound)) }
    ensures count { IfOk result
        (λ known. IfNone known (length fingerprints.new.items ≡ bound)) }
    ensures fingerprints { OnOk result (AreFingerprints rule.now cells.now fingerprints.new.items) }
{
    let mut onset = FIRST_LEAD.min(bound);
    if let Some((period, displacement)) = run_to_return(
        observer,
        runner,
        cells,
        rule,
        onset,
        fingerprints,
    )? {
        return Ok(Some(Some(Recurrence {
            onset: 0,
            period,
            displacement,
        })));
    }
    'anchors: while onset < bound {
        let anchor = runner.cells()?;
        if outgrows(alloc, rule, cells, &anchor, runner.age(), bound) {
            return Ok(Some(None));
        }
        let steps = onset.min(bound - onset);
        if let Some((period, displacement)) = run_to_return(
            observer,
            runner,
            &anchor,
            rule,
            steps,
            fingerprints,
        )? {
            return Ok(Some(Some(Recurrence {
                onset,
                period,
                displacement,
            })));
        }
        onset += steps;
    }
    Ok(None)
}

/// A generation that recurs, if one does within the bound at all. It may be found even if none does. The walk goes past the bound
/// only while the fingerprints leave a period possible, and records the fingerprint of each generation. Each is reported to an
/// observer.
pub fn find_return<P: Plane, W: Observer>(
    alloc: Global,
    observer: &W,
    runner: &mut P,
    cells: &CellList,
    rule: &Rule,
    bound: u32,
    fingerprints: &mut Vec<Fingerprint>,
) -> Result<Option<Recurrence>, AllocError>
    requires bound { 1 ≤ bound × bound ≤ BOUND_LIMIT }
    requires cells { cells.now ≡ P.members runner.old }
    requires new { P.steps_made runner.old ≡ 0 }
    requires none { fingerprints.old.items ≡ [] }
    ensures found { IfOk result
        (λ answer. IfSome answer
        (λ r. IsReturn rule.now (generation rule.now cells.now r.onset) r.period r.displacement)) }
    ensures onset { IfOk result (λ answer. IfSome answer (λ r. r.onset ≤ bound)) }
    ensures period { IfOk result (λ answer. IfSome answer (λ r. r.period ≤ bound)) }
    ensures seen { IfOk result
        (λ answer. IfSome answer
        (λ r. P.members runner.new ≡ generation rule.now cells.now (r.onset + r.period))) }
    ensures seen_age { IfOk result
        (λ answer. IfSome answer (λ r. P.steps_made runner.new ≡ r.onset + r.period)) }
    ensures fingerprints { OnOk result (AreFingerprints rule.now cells.now fingerprints.new.items) }
    ensures none { IfOk result
        (λ answer. IfNone answer ((g : ℕ) → SettlesAt rule.now cells.now bound g → ⊥)) }
{
    if let Some(known) = find_return_within(
        alloc,
        observer,
        runner,
        cells,
        rule,
        bound,
        fingerprints,
    )? {
        return Ok(known);
    }
    let anchor = runner.cells()?;
    let marked = fingerprint_of(&anchor);
    fingerprints.push(marked)?;
    let candidates = candidates(alloc, fingerprints, bound)?;
    let mut periods = candidates.as_slice();
    let mut lookout = Lookout::new();
    for lead in 0..bound {
        if periods.is_empty() {
            return Ok(None);
        }
        observer.reached(bound + lead);
        runner.step(rule)?;
        let sight = lookout.look(&anchor, marked, runner, lead, true)?;
        fingerprints.push(sight.fingerprint)?;
        if let Some(displacement) = sight.offset {
            return Ok(Some(Recurrence {
                onset: bound,
                period: lead + 1,
                displacement,
            }));
        }
        periods = strike_periods(periods, fingerprints);
    }
    Ok(None)
}
