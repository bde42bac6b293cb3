//! The laws of the census of a pattern: that it is right, and that it depends neither on the bound nor on the generation from
//! which the pattern is followed. They hold both where things near one another count as one object and where independent parts
//! are counted.

ghost use Rattle.std.specs.Prelude.{◌≡◌, ◌≢◌, ℕ, ◌+◌, ◌*◌, ◌≤◌, ℤ, Bool, List, [], ◌∷◌, Option};
ghost use Rattle.life_model.specs.Evolution.{generation};
ghost use Rattle.life_model.specs.Generation.{Generation};
ghost use Rattle.life_model.specs.Rule.{Rule};
ghost use Rattle.life_objects.specs.Ash.{HasFallenApart, IsAsh};
ghost use Rattle.life_answer.specs.Answers.{outcome_of};
ghost use Rattle.life_answer.specs.Census.{ash_onset, census_of, counted_parts};
ghost use Rattle.life_answer.specs.declared.finding.Outcome.TheVariants.{Ash, Recurs, Unresolved};
ghost use Rattle.life_answer.specs.Parts.{objects_in, single};
ghost use Rattle.life_answer.specs.Questions.{outcome_to};
ghost use Rattle.life_answer.specs.declared.part.Part.{Part};
ghost use Rattle.life_answer.specs.declared.question.Question.TheVariants.{Objects};

/// For a set that has fallen apart the objects are found, counted by codes. For any other set nothing is found.
pub fn the_census_is_right()
    ensures ash { (near : Bool) (R : Rule) (b : ℕ) (G : Generation) (parts : List Generation) →
        HasFallenApart R b G parts → census_of near R G b ≡ Ash (ash_onset R G b) (counted_parts near R b parts) }
    ensures otherwise { (near : Bool) (R : Rule) (b : ℕ) (G : Generation) →
        ((parts : List Generation) → HasFallenApart R b G parts → ⊥) → census_of near R G b ≡ Unresolved }
{}

/// Objects are found only for sets that have fallen apart.
pub fn nothing_else_is_ash()
    ensures ash { (near : Bool) (R : Rule) (b onset : ℕ) (G : Generation) (told : List Part) →
        census_of near R G b ≡ Ash onset told →
        (parts : List Generation) × HasFallenApart R b G parts × (told ≡ counted_parts near R b parts) }
    ensures no_ash { (near : Bool) (R : Rule) (b : ℕ) (G : Generation) (parts : List Generation) →
        census_of near R G b ≡ Unresolved → HasFallenApart R b G parts → ⊥ }
{}

/// A census depends neither on the bound nor on the generation from which the pattern is followed. Within each greater bound it
/// is the same. If objects are found for two generations of a pattern, within two bounds, they are the same.
pub fn a_census_lasts()
    ensures bound { (near : Bool) (R : Rule) (b c onset : ℕ) (G : Generation) (parts : List Part) → b ≤ c →
        census_of near R G b ≡ Ash onset parts → census_of near R G c ≡ Ash onset parts }
    ensures phase { (near : Bool) (R : Rule) (b c m n onset other : ℕ) (G : Generation) (parts others : List Part) →
        census_of near R (generation R G m) b ≡ Ash onset parts →
        census_of near R (generation R G n) c ≡ Ash other others → parts ≡ others }
{}

/// Ash that appears earlier is found: if generation g is ash within h, its objects are found within each bound that is at least
/// g and at least h.
pub fn ash_that_is_seen_sooner_is_found()
    ensures { (near : Bool) (R : Rule) (b g h : ℕ) (G : Generation) (parts : List Generation) →
        IsAsh R h (generation R G g) parts → g ≤ b → h ≤ b →
        census_of near R G b ≡ Ash (ash_onset R G b) (counted_parts near R h parts) }
{}

/// Ash of exactly one part is that part alone: its pattern recurs from the onset of the ash on, with a period of at most the
/// bound, and has the part's code. If the question is for objects, an answer `Recurs` is the same as to the question which
/// generation recurs, at each bound from the onset plus the period on; and an answer `Ash` has no part, or more than one.
pub fn ash_of_one_part_recurs()
    ensures found { (near : Bool) (R : Rule) (G : Generation) (b onset : ℕ) (parts : List Part) →
        census_of near R G b ≡ Ash onset parts → objects_in parts ≡ 1 →
        (code : List ℕ) × (parts ≡ single code ∷ []) × (period : ℕ) × (period ≤ b) × (dx : ℤ) × (dy : ℤ)
        × (outcome_of R G (2 * b) ≡ Recurs onset period dx dy code) }
    ensures recurs { (near : Bool) (limit : Option ℕ) (R : Rule) (G : Generation) (b horizon onset period : ℕ) (dx dy : ℤ)
        (code : List ℕ) → outcome_to (Objects b limit near horizon) R G ≡ Recurs onset period dx dy code →
        (c : ℕ) → onset + period ≤ c → outcome_of R G c ≡ Recurs onset period dx dy code }
    ensures ash { (near : Bool) (limit : Option ℕ) (R : Rule) (G : Generation) (b horizon onset : ℕ) (parts : List Part) →
        outcome_to (Objects b limit near horizon) R G ≡ Ash onset parts →
        (census_of near R G b ≡ Ash onset parts) × (objects_in parts ≢ 1) }
{}
