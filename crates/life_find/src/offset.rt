//! The offset of a generation from another that is the same, moved as a whole.
ghost use Rattle.std.specs.Prelude.{◌≡◌, IfNone, IfOk, IfSome};
ghost use Rattle.life_model.specs.Symmetry.{normal};
ghost use Rattle.life_plane.specs.Offsets.{IsOffset};
ghost use Rattle.life_find.specs.Fingerprint.{IsFingerprint};

use crate::fingerprint::{Fingerprint, may_match};
use life_cells::CellList;
use life_plane::Plane;
use std::alloc::AllocError;

/// The offset of the cells of the plane from the listed ones, if they are those moved as a whole. They are compared only if
/// the fingerprints agree.
pub fn offset_to<P: Plane>(
    from: &CellList,
    marked: Fingerprint,
    to: &P,
    fingerprint: Fingerprint,
) -> Result<Option<(i32, i32)>, AllocError>
    requires marked { IsFingerprint from.now marked }
    requires known { IsFingerprint (P.members to.now) fingerprint }
    ensures offset { IfOk result
        (λ found. IfSome found (λ d. IsOffset from.now (P.members to.now) d)) }
    ensures apart { IfOk result
        (λ found. IfNone found (normal from.now ≡ normal (P.members to.now) → ⊥)) }
{
    if may_match(marked, fingerprint) {
        return to.offset_from(from);
    }
    Ok(None)
}

/// The offset of the second plane's cells from the first's, if they are those moved as a whole.
pub fn plane_offset<P: Plane>(from: &P, to: &P) -> Result<Option<(i32, i32)>, AllocError>
    ensures offset { IfOk result
        (λ found. IfSome found (λ d. IsOffset (P.members from.now) (P.members to.now) d)) }
    ensures apart { IfOk result
        (λ found. IfNone found (normal (P.members from.now) ≡ normal (P.members to.now) → ⊥)) }
{
    if from.population() != to.population() {
        return Ok(None);
    }
    to.offset_from_plane(from)
}
