//! The mathematics of Life-like rules on the unbounded plane: definitions in `specs/`, and their laws as the
//! contracts of functions that do nothing.
//!
//! Tested in `checks/laws`.
#![tactic(auto)]

ghost use Rattle.std.specs.Prelude.{◌≡◌, ℕ, ◌+◌, ◌<◌, ◌≤◌, ◌↔◌, Bool, true, false, cond, T, List, map};
ghost use Rattle.std.specs.List.{list_any};
ghost use Rattle.std.specs.Cmp.{IsTotalOrder};
ghost use Rattle.std.specs.FinMap.{IsAntisymmetric};
ghost use Rattle.life_model.specs.Cell.{Cell, IsNear, around, cell_cmp, origin, plus, same_cell};
ghost use Rattle.life_model.specs.Evolution.{count, generation, next};
ghost use Rattle.life_model.specs.Generation.{Generation, cells, contains, empty, from_list, is_rising};
ghost use Rattle.life_model.specs.Recurrence.{AreOneObject, Recurrence, RecursBy, Settles, SettlesAt};
ghost use Rattle.life_model.specs.Rule.{Rule, born, stays};
ghost use Rattle.life_model.specs.Symmetry.{IsCorner, Orientation, translate_of, normal, image_under};

/// Cells are in one total order, in which only equal cells tie.
pub fn cells_are_ordered()
    ensures total { IsTotalOrder cell_cmp }
    ensures exact { IsAntisymmetric cell_cmp }
{}

/// Generations with the same members are equal.
pub fn members_tell_generations()
    ensures { (G H : Generation) → ((c : Cell) → contains G c ≡ contains H c) → G ≡ H }
{}

/// A generation lists its members in order, each once. `from_list` makes a generation of any list; that of a list in order
/// lists the same cells.
pub fn members_in_order()
    ensures listed { (G : Generation) (c : Cell) → contains G c ≡ list_any (same_cell c) (cells G) }
    ensures rising { (G : Generation) → T (is_rising (cells G)) }
    ensures made { (cs : List Cell) (c : Cell) →
        contains (from_list cs) c ≡ list_any (same_cell c) cs }
    ensures again { (cs : List Cell) → T (is_rising cs) → cells (from_list cs) ≡ cs }
{}

/// A live cell is live in the next generation if it stays with its number of live neighbours, and a dead one if it is born with
/// that number. None is born without a live neighbour.
pub fn next_by_members()
    ensures next { (R : Rule) (G : Generation) (c : Cell) →
        contains (next R G) c ≡ cond (contains G c) (stays R (count G c)) (born R (count G c)) }
    ensures neighbours { (R : Rule) → born R 0 ≡ false }
{}

/// Each cell of the next generation is within one of a cell of this one, in both directions.
pub fn next_is_near()
    ensures { (R : Rule) (G : Generation) (c : Cell) →
        contains (next R G) c ≡ true → (g : Cell) × (contains G g ≡ true) × IsNear c g }
{}

/// Evolution commutes with moves and with the eight maps.
pub fn next_commutes()
    ensures moved { (R : Rule) (G : Generation) (d : Cell) →
        next R (translate_of G d) ≡ translate_of (next R G) d }
    ensures turned { (R : Rule) (G : Generation) (m : Orientation) →
        next R (image_under G m) ≡ image_under (next R G) m }
{}

/// Only one move takes a set with a cell to a given place.
pub fn a_move_is_unique()
    ensures { (G : Generation) (c d e : Cell) → contains G c ≡ true →
        translate_of G d ≡ translate_of G e → d ≡ e }
{}

/// A move keeps the order of cells.
pub fn moves_keep_order()
    ensures { (G : Generation) (d : Cell) →
        cells (translate_of G d) ≡ map (λ c. plus c d) (cells G) }
{}

/// The least x and the least y of a normal form are 0, and the empty set is unchanged.
pub fn normal_form_stands_at_the_origin()
    ensures corner { (G : Generation) (c : Cell) → contains G c ≡ true →
        IsCorner (normal G) origin }
    ensures empty { normal empty ≡ empty }
{}

/// Two sets have the same normal form exactly if one is the other, moved.
pub fn normal_forms_tell_moves()
    ensures { (G H : Generation) → (normal G ≡ normal H) ↔ ((d : Cell) × (H ≡ translate_of G d)) }
{}

/// Onset, period and displacement are the same for every bound within which they exist.
pub fn one_settling()
    ensures { (R : Rule) (G : Generation) (b c : ℕ) (r s : Recurrence) →
        Settles R G b r → Settles R G c s → r ≡ s }
{}

/// A set settles within exactly those bounds that are at least the sum of its onset and its period.
pub fn settles_within()
    ensures within { (R : Rule) (G : Generation) (b : ℕ) (r : Recurrence) →
        Settles R G b r → r.onset + r.period ≤ b }
    ensures any { (R : Rule) (G : Generation) (b c : ℕ) (r : Recurrence) →
        Settles R G b r → r.onset + r.period ≤ c → Settles R G c r }
    ensures only { (R : Rule) (G : Generation) (b c g : ℕ) (r : Recurrence) →
        Settles R G b r → SettlesAt R G c g → r.onset + r.period ≤ c }
{}

/// Sets that recur are one object exactly if some phase of one, turned, has the shape of some phase of the other, turned. Then
/// each phase of one, turned in any way, has the shape of some phase of the other, turned.
pub fn one_object()
    ensures made { (R : Rule) (G H : Generation) (k l : ℕ) (m n : Orientation) →
        normal (image_under (generation R G k) m) ≡ normal (image_under (generation R H l) n) →
        AreOneObject R G H }
    ensures each { (R : Rule) (G H : Generation) (p q : ℕ) (d e : Cell) → RecursBy R G p d →
        RecursBy R H q e →
        AreOneObject R G H → (k : ℕ) (m : Orientation) →
        (l : ℕ) × (n : Orientation) × (l < q) ×
        (normal (image_under (generation R G k) m) ≡ normal (image_under (generation R H l) n)) }
    ensures swapped { (R : Rule) (G H : Generation) → AreOneObject R G H → AreOneObject R H G }
{}
