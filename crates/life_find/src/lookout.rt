//! The lookout for a set that is to recur.
ghost use Rattle.std.specs.Prelude.{◌≡◌, ℕ, ◌<◌, ◌≤◌, IfNone, IfOk, IfSome, OnOk};
ghost use Rattle.life_model.specs.Evolution.{generation, next};
ghost use Rattle.life_model.specs.Rule.{Rule};
ghost use Rattle.life_model.specs.Symmetry.{normal};
ghost use Rattle.life_plane.specs.Offsets.{IsOffset};
ghost use Rattle.life_find.specs.Fingerprint.{IsFingerprint};
ghost use Rattle.life_find.specs.Quiet.{IsQuiet};

use crate::fingerprint::{Fingerprint, fingerprint_on};
use crate::limit::BOUND_LIMIT;
use crate::missing::are_away;
use crate::offset::offset_to;
use life_cells::CellList;
use life_plane::Plane;
use std::alloc::AllocError;

/// The number of cells up to which a set is small enough to compare each with each.
const FEW: usize = 64;

/// The number of consecutive generations with as many cells as the set that is to recur after which the lookout checks how far
/// away they are.
const PATIENCE: u32 = 64;

/// The part of the generations so far for which the lookout may rest at once.
const REST: u32 = 10;

/// The facts that are known of the coming generations.
#[derive(Clone, Copy)]
pub struct Lookout {
    /// The number of the coming generations that are known to be others.
    pub quiet: u32,
    /// The number of consecutive generations that had as many cells as the set that is to recur.
    pub alike: u32,
}

/// The sight of a generation: its fingerprint, and its offset from the set that is to recur, if it is that set, moved.
#[derive(Clone, Copy)]
pub struct Sight {
    pub fingerprint: Fingerprint,
    pub offset: Option<(i32, i32)>,
}

/// The number of the coming generations that are known to be others: `wanted`, or 0. It is `wanted` if, wherever the listed
/// cells are moved to, one of them is missing so far away that it can't come sooner.
fn quiet_for<P: Plane>(listed: &CellList, plane: &P, wanted: u32) -> Result<u32, AllocError>
    requires { wanted ≤ BOUND_LIMIT }
    ensures { IfOk result (λ quiet. (R : Rule) (k : ℕ) → 0 < k → k ≤ quiet →
        normal listed.now ≡ normal (generation R (P.members plane.now) k) → ⊥) }
{
    let listed = listed.as_slice();
    if listed.is_empty() || listed.len() > FEW {
        return Ok(0);
    }
    let cells = plane.cells()?;
    if !are_away(listed, cells.as_slice(), 2 * wanted) {
        return Ok(0);
    }
    Ok(wanted)
}

impl Lookout {
    /// The lookout before anything is known.
    pub fn new() -> Lookout
        ensures { result.quiet ≡ 0 }
    {
        Lookout { quiet: 0, alike: 0 }
    }

    /// Determines for how long the coming generations are others, if many consecutive ones had as many cells as the listed set.
    fn rest<P: Plane>(
        &mut self,
        listed: &CellList,
        plane: &P,
        is_alike: bool,
        taken: u32,
    ) -> Result<(), AllocError>
        requires { taken ≤ BOUND_LIMIT }
        ensures { OnOk result ((R : Rule) (k : ℕ) → 0 < k → k ≤ self.new.quiet →
            normal listed.now ≡ normal (generation R (P.members plane.now) k) → ⊥) }
    {
        self.quiet = 0;
        self.alike = if is_alike {
            self.alike.saturating_add(1)
        } else {
            0
        };
        if self.alike < PATIENCE {
            return Ok(());
        }
        self.quiet = quiet_for(listed, plane, taken / REST)?;
        self.alike = if self.quiet > 0 { PATIENCE } else { 0 };
        Ok(())
    }

    /// The sight of a generation that came `taken` steps after the listed set, with its span if `spanned`. It isn't examined if
    /// it is known to be another.
    pub fn look<P: Plane>(
        &mut self,
        listed: &CellList,
        marked: Fingerprint,
        plane: &P,
        taken: u32,
        spanned: bool,
    ) -> Result<Sight, AllocError>
        requires marked { IsFingerprint listed.now marked }
        requires taken { taken ≤ BOUND_LIMIT }
        requires quiet { (R : Rule) × IsQuiet R listed.now (P.members plane.now) self.old.quiet }
        ensures fingerprint { IfOk result
            (λ sight. IsFingerprint (P.members plane.now) sight.fingerprint) }
        ensures offset { IfOk result
            (λ sight. IfSome sight.offset (λ d. IsOffset listed.now (P.members plane.now) d)) }
        ensures apart { IfOk result
            (λ sight. IfNone sight.offset (normal listed.now ≡ normal (P.members plane.now) → ⊥)) }
        ensures quiet { OnOk result
            ((R : Rule) → IsQuiet R listed.now (P.members plane.now) self.old.quiet →
            IsQuiet R listed.now (next R (P.members plane.now)) self.new.quiet) }
    {
        if self.quiet > 0 {
            self.quiet -= 1;
            return Ok(Sight {
                fingerprint: Fingerprint::UNKNOWN,
                offset: None,
            });
        }
        let population = plane.population();
        let is_alike = marked.population == Some(population);
        let fingerprint = fingerprint_on(plane, population, is_alike || spanned)?;
        let offset = offset_to(listed, marked, plane, fingerprint)?;
        self.rest(listed, plane, is_alike, taken)?;
        Ok(Sight {
            fingerprint,
            offset,
        })
    }
}
