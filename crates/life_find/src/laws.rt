//! The law of fingerprints.
ghost use Rattle.std.specs.Prelude.{◌≡◌, IfSome, true};
ghost use Rattle.life_model.specs.Cell.{Cell};
ghost use Rattle.life_model.specs.Generation.{Generation};
ghost use Rattle.life_model.specs.Symmetry.{translate_of, normal};
ghost use Rattle.life_find.specs.declared.fingerprint.Fingerprint.{Fingerprint};
ghost use Rattle.life_find.specs.Fingerprint.{IsFingerprint, may_match};

/// Sets that are equal up to a move have fingerprints that agree, and so have a set and its image under a move. Generations whose
/// fingerprints disagree are thus distinguished without their cells. If both have a span, it is the same one.
pub fn fingerprints_follow_moves()
    ensures shape { (G H : Generation) (a b : Fingerprint) → normal G ≡ normal H →
        IsFingerprint G a → IsFingerprint H b → may_match a b ≡ true }
    ensures moved { (G : Generation) (d : Cell) (a b : Fingerprint) → IsFingerprint G a →
        IsFingerprint (translate_of G d) b → may_match a b ≡ true }
    ensures equal { (G H : Generation) (a b : Fingerprint) → normal G ≡ normal H →
        IsFingerprint G a → IsFingerprint H b →
        IfSome a.span (λ s. IfSome b.span (λ t. s ≡ t)) }
{}
