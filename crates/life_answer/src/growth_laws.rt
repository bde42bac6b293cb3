//! The laws of the report of growth: that it is right, and that it depends neither on the bound nor on the generation from
//! which the pattern is followed. Unless said otherwise, they hold both where things near one another count as one object and
//! where independent parts are counted.

ghost use Rattle.std.specs.Prelude.{◌≡◌, ◌↔◌, ℕ, ◌+◌, ◌*◌, ◌≤◌, Bool, Option, None, Some, List, Contains, count_by, length, true};
ghost use Rattle.std.specs.List.{All, AllPairs};
ghost use Rattle.std.specs.List.Sorted.{IsPermutation};
ghost use Rattle.std.specs.declared.cmp.Ordering.TheVariants.{Less};
ghost use Rattle.life_model.specs.Evolution.{generation};
ghost use Rattle.life_model.specs.Generation.{Generation};
ghost use Rattle.life_model.specs.Rule.{Rule};
ghost use Rattle.life_objects.specs.Ash.{HasFallenApart};
ghost use Rattle.life_objects.specs.Kinds.{AreAlike};
ghost use Rattle.life_growth.specs.Engine.{Emits, IsEngine, IsEngineWithin, Way};
ghost use Rattle.life_growth.specs.Growth.{IsGrowth};
ghost use Rattle.life_growth.specs.Told.{AreToldAlike};
ghost use Rattle.life_answer.specs.Census.{census_of, counted_parts, fallen_of};
ghost use Rattle.life_answer.specs.Counted.{counted_of};
ghost use Rattle.life_answer.specs.CountedTales.{counted_tales, engines_in, same_tale, tale_cmp};
ghost use Rattle.life_answer.specs.Limited.{StaysWithin, outcome_unless_large};
ghost use Rattle.life_answer.specs.Questions.{outcome_to};
ghost use Rattle.life_answer.specs.Ranges.{IsInRange};
ghost use Rattle.life_answer.specs.Rising.{number_of, risen};
ghost use Rattle.life_answer.specs.Tales.{tale_of};
ghost use Rattle.life_answer.specs.Told.{growth_told, told_of_engines};
ghost use Rattle.life_answer.specs.declared.finding.Outcome.TheVariants.{Ash, Grows};
ghost use Rattle.life_answer.specs.declared.part.Part.{Part};
ghost use Rattle.life_answer.specs.declared.question.Question.TheVariants.{Objects};
ghost use Rattle.life_answer.specs.declared.tale.Engines.{Engines};
ghost use Rattle.life_answer.specs.declared.tale.Tale.{Tale};

/// The tale of an engine is the period and the displacement of its way, and the objects that it emits in a period, counted as
/// those of ash are.
pub fn tales_are_right()
    ensures { (near : Bool) (R : Rule) (b : ℕ) (E : Generation) (way : Way) (objects : List Generation) →
        IsEngine R b E way → Emits R b way objects → tale_of near R b E ≡ record {
          period = way.period;
          dx = way.displacement.0;
          dy = way.displacement.1;
          emits = counted_parts near R b objects;
        } }
{}

/// Two engines that move alike and emit alike have the same tale, whatever the bounds. Two engines with the same tale have
/// the same period and displacement, and what they emit counts as alike sets. So if things near one another count as one
/// object, two engines are alike (`AreToldAlike`) exactly if they have the same tale. Independent parts alone don't determine
/// the objects that are emitted.
pub fn tales_tell_engines()
    ensures one { (near : Bool) (R : Rule) (b c : ℕ) (E F : Generation) → AreToldAlike R b c E F →
        tale_of near R b E ≡ tale_of near R c F }
    ensures alike { (R : Rule) (b c : ℕ) (E F : Generation) → IsEngineWithin R b E → IsEngineWithin R c F →
        tale_of true R b E ≡ tale_of true R c F → AreToldAlike R b c E F }
    ensures parts { (near : Bool) (R : Rule) (b c : ℕ) (E F : Generation) (way other : Way) →
        IsEngine R b E way → IsEngine R c F other → tale_of near R b E ≡ tale_of near R c F →
        (way.period ≡ other.period) × (way.displacement ≡ other.displacement) ×
        ((Ps Qs : List Generation) → Emits R b way Ps → Emits R c other Qs →
        AreAlike R (counted_of near R b Ps) (counted_of near R c Qs)) }
{}

/// Tales are counted. A line has a tale and the number of times that it occurs, which is at least 1. Each tale has a line.
/// The lines are sorted by their tales. Their numbers add up to the number of tales. The order in which the tales come makes
/// no difference.
pub fn tales_are_counted()
    ensures number { (ts : List Tale) (line : Engines) → Contains (counted_tales ts) line →
        (1 ≤ line.count) × (line.count ≡ count_by (same_tale line.tale) ts) }
    ensures each { (ts : List Tale) (t : Tale) → Contains ts t →
        Contains (counted_tales ts) (record { tale = t; count = count_by (same_tale t) ts }) }
    ensures same { (s t : Tale) → (same_tale s t ≡ true) ↔ (s ≡ t) }
    ensures order { (ts : List Tale) →
        AllPairs (λ line next. tale_cmp line.tale next.tale ≡ Less) (counted_tales ts) }
    ensures all { (ts : List Tale) → engines_in (counted_tales ts) ≡ length ts }
    ensures any_order { (ts us : List Tale) → IsPermutation ts us → counted_tales ts ≡ counted_tales us }
{}

/// The engines of a set that grows are reported, counted by their tales, and nothing is reported for a set that doesn't grow.
pub fn what_is_told_is_right()
    ensures grows { (near : Bool) (R : Rule) (b : ℕ) (G S : Generation) (Es : List Generation) → IsGrowth R b G Es S →
        growth_told near R b G ≡ Some (told_of_engines near R b Es) }
    ensures otherwise { (near : Bool) (R : Rule) (b : ℕ) (G : Generation) →
        ((S : Generation) (Es : List Generation) → IsGrowth R b G Es S → ⊥) → growth_told near R b G ≡ None }
{}

/// Only what is true is reported: growth of what grows, and no growth of what doesn't.
pub fn nothing_else_is_told()
    ensures grows { (near : Bool) (R : Rule) (b : ℕ) (G : Generation) (told : List Engines) →
        growth_told near R b G ≡ Some told →
        (Es : List Generation) × (S : Generation) × IsGrowth R b G Es S × (told ≡ told_of_engines near R b Es) }
    ensures no_growth { (near : Bool) (R : Rule) (b : ℕ) (G S : Generation) (Es : List Generation) →
        growth_told near R b G ≡ None → IsGrowth R b G Es S → ⊥ }
{}

/// The report depends neither on the bound nor on the generation from which the pattern is followed. Within each greater
/// bound, and for each later generation, the same is reported. If something is reported for two generations of a pattern,
/// within two bounds, it is the same.
pub fn what_is_told_lasts()
    ensures bound { (near : Bool) (R : Rule) (b c : ℕ) (G : Generation) (told : List Engines) → b ≤ c →
        growth_told near R b G ≡ Some told → growth_told near R c G ≡ Some told }
    ensures later { (near : Bool) (R : Rule) (b c m n : ℕ) (G : Generation) (told : List Engines) → b ≤ c → m ≤ n →
        growth_told near R b (generation R G m) ≡ Some told → growth_told near R c (generation R G n) ≡ Some told }
    ensures phase { (near : Bool) (R : Rule) (b c m n : ℕ) (G : Generation) (told others : List Engines) →
        growth_told near R b (generation R G m) ≡ Some told → growth_told near R c (generation R G n) ≡ Some others →
        told ≡ others }
{}

/// Growth that appears earlier is reported. Take a generation g that grows within h generations, where h is no more than the
/// horizon. Let neither be more than some c up to the bound such that no generation up to four times c has more cells than
/// allowed. Then the answer is that the pattern grows, by these engines.
pub fn what_is_seen_sooner_is_told()
    ensures { (near : Bool) (limit : Option ℕ) (R : Rule) (b horizon c g h : ℕ) (G S : Generation) (Es : List Generation) →
        IsGrowth R h (generation R G g) Es S → g ≤ c → h ≤ c → h ≤ horizon → c ≤ b → StaysWithin limit R G (4 * c) →
        outcome_to (Objects b limit near horizon) R G ≡ Grows (told_of_engines near R h Es) }
{}

/// The answer is that a pattern grows only if it does. Otherwise the answer is what was found apart from growth. An answer of
/// growth stays the same within each greater bound and each greater horizon. A pattern has one such answer, whatever the
/// bound, the horizon and the limit on cells.
pub fn what_is_answered_is_right()
    ensures only { (near : Bool) (limit : Option ℕ) (R : Rule) (b horizon : ℕ) (G : Generation) (told : List Engines) →
        outcome_to (Objects b limit near horizon) R G ≡ Grows told →
        (c : ℕ) × (1 ≤ c) × (c ≤ b) × StaysWithin limit R G (4 * c) × (h : ℕ) × (1 ≤ h) × (h ≤ c) × (h ≤ horizon)
        × (Es : List Generation) × (S : Generation) × IsGrowth R h (generation R G c) Es S
        × (told ≡ told_of_engines near R h Es) }
    ensures otherwise { (near : Bool) (limit : Option ℕ) (R : Rule) (b horizon : ℕ) (G : Generation) →
        ((c h : ℕ) (S : Generation) (Es : List Generation) → h ≤ c → h ≤ horizon → c ≤ b → StaysWithin limit R G (4 * c) →
        IsGrowth R h (generation R G c) Es S → ⊥) →
        outcome_to (Objects b limit near horizon) R G
        ≡ outcome_unless_large limit R G (3 * b) (fallen_of near R G b) }
    ensures lasts { (near : Bool) (limit : Option ℕ) (R : Rule) (b c horizon further : ℕ) (G : Generation)
        (told : List Engines) → b ≤ c → horizon ≤ further →
        outcome_to (Objects b limit near horizon) R G ≡ Grows told →
        outcome_to (Objects c limit near further) R G ≡ Grows told }
    ensures one { (near : Bool) (limit other : Option ℕ) (R : Rule) (b c horizon further : ℕ) (G : Generation)
        (told others : List Engines) → outcome_to (Objects b limit near horizon) R G ≡ Grows told →
        outcome_to (Objects c other near further) R G ≡ Grows others → told ≡ others }
{}

/// The report is in range. There are engines. Each recurs within the bound or the horizon, has moved by no more cells than it
/// took generations, and emits something.
pub fn what_is_told_is_in_range()
    ensures told { (near : Bool) (R : Rule) (b : ℕ) (G : Generation) (told : List Engines) →
        growth_told near R b G ≡ Some told → (1 ≤ engines_in told) × All (IsInRange b) told }
    ensures answered { (near : Bool) (limit : Option ℕ) (R : Rule) (b horizon : ℕ) (G : Generation) (told : List Engines) →
        outcome_to (Objects b limit near horizon) R G ≡ Grows told →
        (1 ≤ engines_in told) × All (IsInRange horizon) told }
{}

/// No pattern both falls apart and grows, whatever the bounds and the generations from which it is followed. So the answer
/// for what falls apart within the bound is what was found apart from growth.
pub fn what_is_ash_never_grows()
    ensures told { (near close : Bool) (R : Rule) (b c m n onset : ℕ) (G : Generation) (parts : List Part)
        (told : List Engines) → census_of near R (generation R G m) b ≡ Ash onset parts →
        growth_told close R c (generation R G n) ≡ Some told → ⊥ }
    ensures answered { (near close : Bool) (limit : Option ℕ) (R : Rule) (b c onset horizon : ℕ) (G : Generation)
        (parts : List Part) (told : List Engines) → census_of near R G b ≡ Ash onset parts →
        outcome_to (Objects c limit close horizon) R G ≡ Grows told → ⊥ }
    ensures found { (near : Bool) (limit : Option ℕ) (R : Rule) (b onset horizon : ℕ) (G : Generation) (parts : List Part) →
        census_of near R G b ≡ Ash onset parts → outcome_to (Objects b limit near horizon) R G
        ≡ outcome_unless_large limit R G (3 * b) (fallen_of near R G b) }
{}

/// The report of growth is true for ever. Take a number of generations that is a whole number of periods of each engine, and
/// the objects with a code that a growing pattern's debris has fallen apart into. Their number rises by exactly what the
/// lines say: for each line its number of engines, and for each of these, in each of its periods, the number of such objects
/// that it emits.
pub fn what_is_told_goes_on()
    ensures { (near : Bool) (R : Rule) (b m n : ℕ) (G S T U : Generation) (Es Fs Hs parts others : List Generation)
        (code : List ℕ) → IsGrowth R b G Es S → IsGrowth R b (generation R G n) Fs T →
        IsGrowth R b (generation R G (n + m)) Hs U → HasFallenApart R b T parts → HasFallenApart R b U others →
        ((E : Generation) → Contains Es E → (k : ℕ) × (m ≡ k * (tale_of near R b E).period)) →
        number_of code (counted_parts near R b others)
        ≡ number_of code (counted_parts near R b parts) + risen code m (told_of_engines near R b Es) }
{}
