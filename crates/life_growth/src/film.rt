//! The classes of a set, determined by those of its next generation. So the classes of all generations of a film are found in
//! one pass backwards, and no generation is computed again. Definitions are in `specs/`; the laws are the contracts of
//! functions that do nothing.

ghost use Rattle.std.specs.Prelude.{◌≡◌, ◌↔◌, ℕ, suc, List};
ghost use Rattle.life_model.specs.Evolution.{next};
ghost use Rattle.life_model.specs.Generation.{Generation};
ghost use Rattle.life_model.specs.Rule.{Rule};
ghost use Rattle.life_objects.specs.Apart.{AreApart};
ghost use Rattle.life_objects.specs.Piece.{IsSplit};
ghost use Rattle.life_objects.specs.Union.{union};
ghost use Rattle.life_growth.specs.Unsplit.{AreClasses};
ghost use Rattle.life_growth.specs.Film.{AreJoined};

/// A set splits into two for one more generation exactly if they are apart now, and the next generation splits into their
/// next generations.
pub fn splits_are_told_backwards()
    ensures { (R : Rule) (b : ℕ) (G A B : Generation) → IsSplit R (suc b) G A B ↔
        ((union A B ≡ G) × AreApart A B × IsSplit R b (next R G) (next R A) (next R B)) }
{}

/// The classes of a set, for one generation more than those of the next one, are its near pieces, joined wherever they bear
/// cells of one class of the next generation.
pub fn classes_are_told_backwards()
    ensures { (R : Rule) (b : ℕ) (G : Generation) (pieces Qs Ps : List Generation) → AreClasses R 0 G pieces →
        AreClasses R b (next R G) Qs → AreJoined R G pieces Qs Ps → AreClasses R (suc b) G Ps }
{}
