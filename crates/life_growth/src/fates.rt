//! The fate of a pattern within a bound: ash, growth or neither, as a definition that computes it, in `specs/`. Its laws are
//! the contracts of functions that do nothing: it is right, and it lasts.

ghost use Rattle.std.specs.Prelude.{◌≡◌, ℕ, ◌-◌, ◌*◌, ◌≤◌, List, None, Some};
ghost use Rattle.std.specs.List.{AllZip};
ghost use Rattle.std.specs.List.Sorted.{IsPermutation};
ghost use Rattle.life_model.specs.Evolution.{generation};
ghost use Rattle.life_model.specs.Generation.{Generation};
ghost use Rattle.life_model.specs.Rule.{Rule};
ghost use Rattle.life_objects.specs.Ash.{HasFallenApart};
ghost use Rattle.life_objects.specs.Union.{generations, union_of};
ghost use Rattle.life_growth.specs.Engine.{Emits, IsEngine, Way};
ghost use Rattle.life_growth.specs.Growth.{HasComeToGrowth, IsGrowth};
ghost use Rattle.life_growth.specs.Told.{AreToldAlike};
ghost use Rattle.life_growth.specs.Unsplit.{AreClasses};
ghost use Rattle.life_growth.specs.Engines.Tracks.{Step, way_along};
ghost use Rattle.life_growth.specs.Fates.Decided.{growth_of};
ghost use Rattle.life_growth.specs.Fates.Fates.{Ash, Grows, Unresolved, fate_of};
ghost use Rattle.life_growth.specs.Fates.Picked.{ArePicked};
ghost use Rattle.life_growth.specs.Fates.Tracks.{emitted_along, track_of};

/// The track that is found for a set is an engine's way, and the objects listed along it are those that the engine emits. If
/// none is found, the set is not an engine, whatever its way.
pub fn tracks_are_right()
    ensures engine { (R : Rule) (b : ℕ) (E : Generation) (track : List Step) → track_of R b E ≡ Some track →
        IsEngine R b E (way_along E track) }
    ensures emits { (R : Rule) (b : ℕ) (E : Generation) (track : List Step) → track_of R b E ≡ Some track →
        Emits R b (way_along E track) (emitted_along R b track) }
    ensures none { (R : Rule) (b : ℕ) (E : Generation) (way : Way) → track_of R b E ≡ None →
        IsEngine R b E way → ⊥ }
{}

/// The engines and the debris that are found are a growth. If none are found, there is no growth.
pub fn growth_is_decided()
    ensures some { (R : Rule) (b : ℕ) (G S : Generation) (Es : List Generation) →
        growth_of R b G ≡ Some (Es, S) → IsGrowth R b G Es S }
    ensures none { (R : Rule) (b : ℕ) (G S : Generation) (Es : List Generation) → growth_of R b G ≡ None →
        IsGrowth R b G Es S → ⊥ }
{}

/// For a set that grows, its engines are found, in some order, and its debris. For a set that doesn't grow nothing is found.
pub fn growths_are_found()
    ensures growth { (R : Rule) (b : ℕ) (G S : Generation) (Es : List Generation) → IsGrowth R b G Es S →
        (found : List Generation) × (growth_of R b G ≡ Some (found, S)) × IsPermutation Es found }
    ensures otherwise { (R : Rule) (b : ℕ) (G : Generation) →
        ((S : Generation) (Es : List Generation) → IsGrowth R b G Es S → ⊥) →
        growth_of R b G ≡ None }
{}

/// A growth that is found is found within each greater bound too: the same engines, in some order, and the same debris. For a
/// later generation a growth is found too, and its engines are alike (`AreToldAlike`), whatever the bounds.
pub fn what_was_found_grows_on()
    ensures bound { (R : Rule) (b c : ℕ) (G S : Generation) (Es : List Generation) → b ≤ c →
        growth_of R b G ≡ Some (Es, S) → (found : List Generation) ×
        (growth_of R c G ≡ Some (found, S)) × IsPermutation Es found }
    ensures later { (R : Rule) (b c n : ℕ) (G S : Generation) (Es : List Generation) → b ≤ c →
        growth_of R b G ≡ Some (Es, S) → (found : List Generation) × (T : Generation) ×
        (growth_of R c (generation R G n) ≡ Some (found, T)) }
    ensures same { (R : Rule) (b c n : ℕ) (G S T : Generation) (Es found : List Generation) →
        growth_of R b G ≡ Some (Es, S) → growth_of R c (generation R G n) ≡ Some (found, T) →
        (Fs : List Generation) × AllZip (AreToldAlike R b c) Es Fs × IsPermutation Fs found }
{}

/// The fate that is found for a pattern is its fate: ash has fallen apart into these parts, what grows has come to this
/// growth, and an unresolved pattern has done neither.
pub fn fates_are_right()
    ensures ash { (R : Rule) (b : ℕ) (G : Generation) (parts : List Generation) →
        fate_of R b G ≡ Ash parts →
        HasFallenApart R b G parts }
    ensures grows { (R : Rule) (b : ℕ) (G S : Generation) (Es : List Generation) →
        fate_of R b G ≡ Grows Es S →
        HasComeToGrowth R b G Es S }
    ensures no_ash { (R : Rule) (b : ℕ) (G : Generation) (parts : List Generation) →
        fate_of R b G ≡ Unresolved →
        HasFallenApart R b G parts → ⊥ }
    ensures no_growth { (R : Rule) (b : ℕ) (G S : Generation) (Es : List Generation) →
        fate_of R b G ≡ Unresolved →
        HasComeToGrowth R b G Es S → ⊥ }
{}

/// Each fate is found: for what has fallen apart its parts, in some order; for what has come to growth its engines, in some
/// order, and its debris; and `Unresolved` for what has done neither.
pub fn each_fate_is_found()
    ensures ash { (R : Rule) (b : ℕ) (G : Generation) (parts : List Generation) →
        HasFallenApart R b G parts →
        (found : List Generation) × (fate_of R b G ≡ Ash found) × IsPermutation parts found }
    ensures grows { (R : Rule) (b : ℕ) (G S : Generation) (Es : List Generation) →
        HasComeToGrowth R b G Es S →
        (found : List Generation) × (fate_of R b G ≡ Grows found S) × IsPermutation Es found }
    ensures otherwise { (R : Rule) (b : ℕ) (G : Generation) →
        ((parts : List Generation) → HasFallenApart R b G parts → ⊥) →
        ((S : Generation) (Es : List Generation) → HasComeToGrowth R b G Es S → ⊥) →
        fate_of R b G ≡ Unresolved }
{}

/// No pattern is found both to be ash and to grow, whatever the bounds and the generations with which the search begins.
pub fn ash_never_grows()
    ensures { (R : Rule) (b c m n : ℕ) (G S : Generation) (parts Es : List Generation) →
        fate_of R b (generation R G m) ≡ Ash parts →
        fate_of R c (generation R G n) ≡ Grows Es S → ⊥ }
{}

/// A fate lasts. What is ash within a bound is ash within each greater one, of what its parts become, in some order. What
/// grows within a bound grows within each greater one, and its engines are alike.
pub fn fates_last()
    ensures ash { (R : Rule) (b c : ℕ) (G : Generation) (parts : List Generation) → b ≤ c →
        fate_of R b G ≡ Ash parts → (found : List Generation) × (fate_of R c G ≡ Ash found)
        × IsPermutation (generations R parts (c - b)) found }
    ensures grows { (R : Rule) (b c : ℕ) (G S : Generation) (Es : List Generation) → b ≤ c →
        fate_of R b G ≡ Grows Es S →
        (found : List Generation) × (T : Generation) × (fate_of R c G ≡ Grows found T)
        × (Fs : List Generation) × AllZip (AreToldAlike R b c) Es Fs × IsPermutation Fs found }
{}

/// The classes of a pattern, for at least twice the bound, determine its growth: its engines are the classes that are engines
/// within the bound, and its debris is the union of the others.
pub fn classes_tell_growth()
    ensures { (R : Rule) (b far : ℕ) (G S : Generation) (Es Ps Fs Os : List Generation) → 2 * b ≤ far →
        AreClasses R far G Ps → ArePicked R b Ps Fs Os → IsGrowth R b G Es S → IsGrowth R b G Fs (union_of Os) }
{}
