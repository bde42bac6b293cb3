//! Relations between steps, and what they imply for sums. By relations between given steps, and by functions that are 0 for
//! all of them but one, it takes few tries to decide whether a step is a sum of these, each made any number of times.
//! Definitions are in `specs/`; the laws are the contracts of functions that do nothing.

ghost use Rattle.std.specs.Prelude.{◌≡◌, ◌≢◌, ◌↔◌, ℕ, ◌<◌, ◌≤◌, length, map, ℤ, pos, ◌*ℤ◌, List, [], ◌∷◌};
ghost use Rattle.life_growth.specs.Meeting.Sums.{Step, and_then, stay, times};
ghost use Rattle.life_growth.specs.Relations.Relations.{IsRelation, IsSquare, IsSumOf, SinglesOut, above, below, combination, cross, left_out, number_at, product, rest_of, scaled, spanned, step_at};

/// If there is a relation between steps, then a sum c of them is also one in which some step is made less often than the
/// relation has it. So there are no more numbers to try than the relation adds up to, each with one step fewer.
pub fn relations_leave_few_numbers()
    ensures { (us : List Step) (ups downs : List ℕ) (c : Step) → IsRelation us ups downs → IsSumOf us c ↔
        ((i : ℕ) × (often : ℕ) × (often < number_at ups i) × IsSumOf (left_out us i) (rest_of us i c often)) }
{}

/// A function that is 0 for all other steps determines the number of times that a step is made: no other number has to be
/// tried.
pub fn what_singles_a_step_out_tells_its_number()
    ensures sum { (f : Step → ℤ) (us : List Step) (i : ℕ) (c : Step) → SinglesOut f us i → IsSumOf us c ↔
        ((often : ℕ) × (f (times often (step_at us i)) ≡ f c) × IsSumOf (left_out us i) (rest_of us i c often)) }
    ensures one { (f : Step → ℤ) (us : List Step) (i m n : ℕ) → SinglesOut f us i →
        f (times m (step_at us i)) ≡ f (times n (step_at us i)) → m ≡ n }
{}

/// A product with a step that is orthogonal to all steps but one singles that one out. The number of times that it is made in
/// a sum is the product with the sum, divided by the product with the step.
pub fn products_single_a_step_out()
    ensures out { (n : Step) (us : List Step) (i : ℕ) → IsSquare n us i → SinglesOut (product n) us i }
    ensures times { (n u : Step) (often : ℕ) → product n (times often u) ≡ pos often *ℤ product n u }
{}

/// The cross product of two steps is orthogonal to both. So if three steps don't lie in a plane, the cross product of two of
/// them singles out the third.
pub fn cross_products_are_square()
    ensures first { (v w : Step) → product (cross v w) v ≡ pos 0 }
    ensures second { (v w : Step) → product (cross v w) w ≡ pos 0 }
    ensures three { (u v w : Step) → product (cross v w) u ≢ pos 0 → IsSquare (cross v w) (u ∷ v ∷ w ∷ []) 0 }
{}

/// Any four steps are related. One of them, times the volume that the others span, is the sum of the others, each times the
/// volume that is spanned with the one in its place.
pub fn four_steps_are_related()
    ensures { (u v w z : Step) → scaled (spanned u v w) z ≡
        and_then (scaled (spanned z v w) u) (and_then (scaled (spanned u z w) v) (scaled (spanned u v z) w)) }
{}

/// Numbers for which the steps add up to the one that stays are a relation, if some number is above 0: those above 0 are one
/// side, and those below it the other.
pub fn numbers_are_a_relation()
    ensures { (us : List Step) (numbers : List ℤ) (i : ℕ) → combination us numbers ≡ stay → i < length us →
        1 ≤ number_at (map above numbers) i → IsRelation us (map above numbers) (map below numbers) }
{}

/// The only sum of no steps is the one that stays.
pub fn no_steps_stay()
    ensures { (c : Step) → IsSumOf [] c ↔ (c ≡ stay) }
{}
