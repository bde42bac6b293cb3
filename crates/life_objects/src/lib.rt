//! The objects that a pattern of a Life-like rule falls apart into: definitions in `specs/`, and their laws as the contracts
//! of functions that do nothing. `decided` computes whether a set is ash.
//!
//! Tested in `checks/laws`.
#![tactic(auto)]

mod decided;

ghost use Rattle.std.specs.Prelude.{◌≡◌, ◌≢◌, ℕ, ◌+◌, ◌-◌, ◌*◌, ◌<◌, ◌≤◌, ◌↔◌, ◌||◌, ◌≤ℤ◌, true};
ghost use Rattle.std.specs.Prelude.{List, [], ◌∷◌, map, Contains, All, AllPairs};
ghost use Rattle.std.specs.List.{list_any};
ghost use Rattle.std.specs.List.Sorted.{IsPermutation};
ghost use Rattle.life_model.specs.Cell.{Cell};
ghost use Rattle.life_model.specs.Evolution.{generation, next};
ghost use Rattle.life_model.specs.Generation.{Generation, contains, empty, from_list};
ghost use Rattle.life_model.specs.Recurrence.{RecursBy, Recurrence, Settles};
ghost use Rattle.life_model.specs.Rule.{Rule};
ghost use Rattle.life_objects.specs.Apart.{AreApart, AreApartBefore, AreApartFor, AreApartForEver, AreDisjoint};
ghost use Rattle.life_objects.specs.Ash.{HasFallenApart, IsAsh};
ghost use Rattle.life_objects.specs.Drift.{IsBelow, IsRightOf, multiple_of};
ghost use Rattle.life_objects.specs.Onset.{AreBefore, HasAsh, IsAshOnset, IsMadeOf, Recurs};
ghost use Rattle.life_objects.specs.Piece.{IsOnePiece, IsUndivided, LivesThrough};
ghost use Rattle.life_objects.specs.Union.{generations, union, union_of};
ghost use Rattle.life_objects.specs.Whole.{IsCore, StaysWhole};

pub use decided::{ash_is_decided, parts_are_found, what_was_found_lasts};

/// A cell is in the union of two sets exactly if it is in one of them, and in that of a list exactly if it is in one of its
/// sets.
pub fn unions_by_members()
    ensures two { (P Q : Generation) (c : Cell) →
        contains (union P Q) c ≡ (contains P c || contains Q c) }
    ensures list { (Ps : List Generation) (c : Cell) →
        contains (union_of Ps) c ≡ list_any (λ P. contains P c) Ps }
{}

/// Two sets that are apart evolve as if each were alone: for one step, for as long as they stay apart and one step
/// more, and for ever where they are apart for ever. They share no cell then.
pub fn what_is_apart_evolves_alone()
    ensures one_step { (R : Rule) (P Q : Generation) → AreApart P Q →
        (next R (union P Q) ≡ union (next R P) (next R Q)) × AreDisjoint (next R P) (next R Q) }
    ensures a_while { (R : Rule) (b n : ℕ) (P Q : Generation) → AreApartFor R b P Q → n ≤ b + 1 →
        (generation R (union P Q) n ≡ union (generation R P n) (generation R Q n))
        × AreDisjoint (generation R P n) (generation R Q n) }
    ensures ever { (R : Rule) (n : ℕ) (P Q : Generation) → AreApartForEver R P Q →
        (generation R (union P Q) n ≡ union (generation R P n) (generation R Q n))
        × AreDisjoint (generation R P n) (generation R Q n) }
{}

/// Sets in a list, any two of which are apart, evolve as if each were alone, just as two sets do.
pub fn a_list_of_what_is_apart_evolves_alone()
    ensures one_step { (R : Rule) (Ps : List Generation) → AllPairs AreApart Ps →
        (next R (union_of Ps) ≡ union_of (map (next R) Ps)) ×
        AllPairs AreDisjoint (map (next R) Ps) }
    ensures a_while { (R : Rule) (b n : ℕ) (Ps : List Generation) → AllPairs (AreApartFor R b) Ps →
        n ≤ b + 1 →
        (generation R (union_of Ps) n ≡ union_of (generations R Ps n)) ×
        AllPairs AreDisjoint (generations R Ps n) }
    ensures ever { (R : Rule) (n : ℕ) (Ps : List Generation) → AllPairs (AreApartForEver R) Ps →
        (generation R (union_of Ps) n ≡ union_of (generations R Ps n)) ×
        AllPairs AreDisjoint (generations R Ps n) }
{}

/// Each later generation of ash is the union of that generation of its parts, which stay apart.
pub fn ash_goes_on_as_its_parts()
    ensures future { (R : Rule) (b n : ℕ) (G : Generation) (parts : List Generation) →
        IsAsh R b G parts →
        generation R G n ≡ union_of (generations R parts n) }
    ensures apart { (R : Rule) (b n : ℕ) (G : Generation) (parts : List Generation) →
        IsAsh R b G parts →
        AllPairs AreApart (generations R parts n) }
{}

/// Ash has only one list of parts, up to order, whatever the bounds, and each part is in it once.
pub fn ash_has_one_list_of_parts()
    ensures one { (R : Rule) (b c : ℕ) (G : Generation) (parts others : List Generation) →
        IsAsh R b G parts → IsAsh R c G others → IsPermutation parts others }
    ensures once { (R : Rule) (b : ℕ) (G : Generation) (parts : List Generation) →
        IsAsh R b G parts →
        AllPairs (λ P Q. P ≢ Q) parts }
    ensures members { (R : Rule) (b c : ℕ) (G : Generation) (parts others : List Generation) →
        IsAsh R b G parts → IsAsh R c G others → (P : Generation) →
        Contains parts P ↔ Contains others P }
{}

/// Ash stays ash: its parts are then what each of them has become, and a greater bound changes nothing.
pub fn ash_lasts()
    ensures later { (R : Rule) (b n : ℕ) (G : Generation) (parts : List Generation) →
        IsAsh R b G parts →
        IsAsh R b (generation R G n) (generations R parts n) }
    ensures wider { (R : Rule) (b c : ℕ) (G : Generation) (parts : List Generation) →
        IsAsh R b G parts → b ≤ c →
        IsAsh R c G parts }
    ensures same { (R : Rule) (b c n : ℕ) (G : Generation) (parts others : List Generation) →
        IsAsh R b G parts →
        IsAsh R c (generation R G n) others → IsPermutation (generations R parts n) others }
{}

/// A part of ash recurs after n generations, moved by d, exactly if each of its later generations does.
pub fn parts_keep_their_periods()
    ensures { (R : Rule) (b k n : ℕ) (G P : Generation) (d : Cell) (parts : List Generation) →
        IsAsh R b G parts →
        Contains parts P → RecursBy R (generation R P k) n d ↔ RecursBy R P n d }
{}

/// A pattern of which generation g is ash, within a bound b no less than g, has fallen apart within b. A pattern that has fallen
/// apart within b has also done so within each greater bound, into what its parts have become and into nothing else.
pub fn what_has_fallen_apart_stays_so()
    ensures sooner { (R : Rule) (b g : ℕ) (G : Generation) (parts : List Generation) → g ≤ b →
        IsAsh R b (generation R G g) parts → HasFallenApart R b G (generations R parts (b - g)) }
    ensures bound { (R : Rule) (b c : ℕ) (G : Generation) (parts : List Generation) → b ≤ c →
        HasFallenApart R b G parts → HasFallenApart R c G (generations R parts (c - b)) }
    ensures same { (R : Rule) (b c : ℕ) (G : Generation) (parts others : List Generation) → b ≤ c →
        HasFallenApart R b G parts → HasFallenApart R c G others →
        IsPermutation (generations R parts (c - b)) others }
{}

/// The empty set is ash of no parts: of the empty list, and of no other.
pub fn the_empty_set_has_no_parts()
    ensures none { (R : Rule) (b : ℕ) → IsAsh R b empty [] }
    ensures only { (R : Rule) (b : ℕ) (parts : List Generation) → IsAsh R b empty parts →
        parts ≡ [] }
{}

/// A set that recurs after n generations, moved by d, recurs after each multiple of n, moved by the same multiple of d.
pub fn recurrences_go_on()
    ensures { (R : Rule) (k n : ℕ) (P : Generation) (d : Cell) → 1 ≤ k → RecursBy R P n d →
        RecursBy R P (k * n) (multiple_of k d) }
{}

/// Two sets that recur after the same number of generations, moved by the same step, are apart for ever if they are apart until
/// then.
pub fn sets_of_one_velocity_stay_apart()
    ensures { (R : Rule) (n : ℕ) (P Q : Generation) (d : Cell) → RecursBy R P n d →
        RecursBy R Q n d →
        AreApartBefore R n P Q → AreApartForEver R P Q }
{}

/// Two sets that recur after the same number of generations are apart for ever if they are apart up to some time, and from then
/// on, for that number of generations, there is a gap between them and they don't move towards each other.
pub fn sets_that_drift_apart_stay_apart()
    ensures right { (R : Rule) (g n : ℕ) (P Q : Generation) (d e : Cell) → RecursBy R P n d →
        RecursBy R Q n e →
        AreApartBefore R g P Q → e.0 ≤ℤ d.0 →
        ((m : ℕ) → m < n → IsRightOf (generation R P (g + m)) (generation R Q (g + m))) →
        AreApartForEver R P Q }
    ensures below { (R : Rule) (g n : ℕ) (P Q : Generation) (d e : Cell) → RecursBy R P n d →
        RecursBy R Q n e →
        AreApartBefore R g P Q → e.1 ≤ℤ d.1 →
        ((m : ℕ) → m < n → IsBelow (generation R P (g + m)) (generation R Q (g + m))) →
        AreApartForEver R P Q }
{}

/// A set that recurs is in one piece if none of its generations until then is divided.
pub fn one_period_decides_one_piece()
    ensures { (R : Rule) (b n : ℕ) (P : Generation) (d : Cell) → RecursBy R P n d →
        ((m : ℕ) → m < n → IsUndivided R b (generation R P m)) → IsOnePiece R b P }
{}

/// No split tears a single cell. Of the sets of a list that make up a pattern and that no split tears, the first two that are no
/// longer apart are on one side of each split.
pub fn what_meets_stays_whole()
    ensures cell { (R : Rule) (b : ℕ) (G : Generation) (c : Cell) → contains G c ≡ true →
        StaysWhole R b G (from_list (c ∷ [])) }
    ensures meeting { (R : Rule) (b n : ℕ) (G P Q : Generation) (Ps : List Generation) →
        union_of Ps ≡ G →
        All (StaysWhole R b G) Ps → n ≤ b → AllPairs (AreApartBefore R n) Ps → Contains Ps P →
        Contains Ps Q →
        ¬ AreApart (generation R P n) (generation R Q n) → StaysWhole R b G (union P Q) }
{}

/// A pattern made up of sets that no split tears and that stay apart is undivided exactly if no two of them live on.
pub fn parts_decide_what_is_undivided()
    ensures { (R : Rule) (b : ℕ) (G : Generation) (Ps : List Generation) → union_of Ps ≡ G →
        All (StaysWhole R b G) Ps → AllPairs (AreApartFor R b) Ps →
        IsUndivided R b G ↔ AllPairs (λ P Q. LivesThrough R b P → LivesThrough R b Q → ⊥) Ps }
{}

/// If ash is made up of sets that no split tears and that stay apart for its bound, what lives on of each part is one of these
/// sets, and each of them that lives on is what lives on of a part.
pub fn what_lives_on_tells_the_parts()
    ensures of_parts { (R : Rule) (b : ℕ) (G P : Generation) (parts Ls : List Generation) →
        IsAsh R b G parts →
        union_of Ls ≡ G → All (StaysWhole R b G) Ls → AllPairs (AreApartFor R b) Ls →
        Contains parts P →
        (L : Generation) × Contains Ls L × IsCore R b L P }
    ensures of_sets { (R : Rule) (b : ℕ) (G L : Generation) (parts Ls : List Generation) →
        IsAsh R b G parts →
        union_of Ls ≡ G → All (StaysWhole R b G) Ls → AllPairs (AreApartFor R b) Ls →
        Contains Ls L →
        LivesThrough R b L → (P : Generation) × Contains parts P × IsCore R b L P }
{}

/// A set that recurs has a past: for each n, sets that recur are generation n of sets that recur, and a set that recurs is
/// determined by its generation n.
pub fn what_recurs_has_a_past()
    ensures some { (R : Rule) (n : ℕ) (laters : List Generation) → All (Recurs R) laters →
        (sets : List Generation) × AreBefore R n laters sets }
    ensures one { (R : Rule) (n : ℕ) (P Q : Generation) → Recurs R P → Recurs R Q →
        generation R P n ≡ generation R Q n → P ≡ Q }
{}

/// If generation g is ash, an earlier generation t is ash exactly if it is made of what the parts were then, and these stay
/// apart from t on.
pub fn parts_tell_when_ash_began()
    ensures { (R : Rule) (b g t : ℕ) (G : Generation) (parts sets : List Generation) → t ≤ g →
        IsAsh R b (generation R G g) parts → AreBefore R (g - t) parts sets →
        HasAsh R b (generation R G t) ↔ IsMadeOf R (generation R G t) sets }
{}

/// From the onset of its ash on, each generation of a pattern is ash. If a pattern has fallen apart within b, its onset is at
/// most b.
pub fn ash_goes_on_from_its_onset()
    ensures later { (R : Rule) (b t n : ℕ) (G : Generation) → IsAshOnset R b G t → t ≤ n →
        HasAsh R b (generation R G n) }
    ensures by_then { (R : Rule) (b t : ℕ) (G : Generation) (parts : List Generation) →
        IsAshOnset R b G t → HasFallenApart R b G parts → t ≤ b }
{}

/// A pattern's ash has one onset, whatever the bounds, and within each greater bound it is the same.
pub fn ash_has_one_onset()
    ensures one { (R : Rule) (b c s t : ℕ) (G : Generation) → IsAshOnset R b G s →
        IsAshOnset R c G t → s ≡ t }
    ensures wider { (R : Rule) (b c t : ℕ) (G : Generation) → b ≤ c → IsAshOnset R b G t →
        IsAshOnset R c G t }
{}

/// If a pattern settles and has fallen apart, the first generation that recurs is the first that is ash.
pub fn settling_and_ash_have_one_onset()
    ensures { (R : Rule) (b c t : ℕ) (G : Generation) (r : Recurrence) → Settles R G b r →
        IsAshOnset R c G t → r.onset ≡ t }
{}
