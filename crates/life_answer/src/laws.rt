//! The laws that tie the answer to the definition of onset, period and displacement.
ghost use Rattle.std.specs.Prelude.{◌≡◌, ◌+◌, ◌<◌, ◌≤◌, ◌↔◌, ℕ, Bool, List, None, Ok, Option, Some, ℤ, length};
ghost use Rattle.life_model.specs.Evolution.{generation};
ghost use Rattle.life_model.specs.Generation.{Generation, size};
ghost use Rattle.life_model.specs.Recurrence.{AreOneObject, Recurrence, Settles, SettlesAt};
ghost use Rattle.life_model.specs.Rule.{Rule};
ghost use Rattle.life_objects.specs.Ash.{HasFallenApart};
ghost use Rattle.life_objects.specs.Onset.{IsAshOnset};
ghost use Rattle.life_text.specs.declared.rle.RleFault.{RleFault};
ghost use Rattle.life_text.specs.Faults.{fault_number};
ghost use Rattle.life_text.specs.Picture.{Picture, picture_of};
ghost use Rattle.life_text.specs.Rle.{reading, refusal};
ghost use Rattle.life_answer.specs.Answers.{finding_of};
ghost use Rattle.life_answer.specs.Apgcode.{code_of};
ghost use Rattle.life_answer.specs.Census.{ash_onset, census_of};
ghost use Rattle.life_answer.specs.declared.finding.Finding.{Finding};
ghost use Rattle.life_answer.specs.declared.finding.Outcome.TheVariants.{Ash, Grows, Recurs, Unresolved};
ghost use Rattle.life_answer.specs.declared.finding.Answer.TheVariants.{Found, Refused};
ghost use Rattle.life_answer.specs.declared.part.Part.{Part};
ghost use Rattle.life_answer.specs.declared.tale.Engines.{Engines};
ghost use Rattle.life_answer.specs.Limited.{StaysWithin, first_past};
ghost use Rattle.life_answer.specs.Parts.{counted_codes, objects_in};
ghost use Rattle.life_answer.specs.Questions.{answer_to_question, finding_to};
ghost use Rattle.life_answer.specs.declared.question.Question.{Question};
ghost use Rattle.life_answer.specs.declared.question.Question.TheVariants.{Settles as AsksSettling};
ghost use Rattle.std.specs.List.Sorted.{IsPermutation};

/// For a set that settles within the bound, the finding is the population of the set itself, its onset, period and
/// displacement, and the code of the generation at the onset. It is found only for such a set.
pub fn a_settled_set_recurs()
    ensures found { (R : Rule) (G : Generation) (b : ℕ) (r : Recurrence) → Settles R G b r →
        finding_of R G b ≡ record {
          population = size G;
          outcome = Recurs r.onset r.period r.displacement.0 r.displacement.1
              (code_of R (generation R G r.onset) r.period r.displacement);
        } }
    ensures only { (R : Rule) (G : Generation) (b onset period : ℕ) (dx dy : ℤ)
        (code : List ℕ) →
        (finding_of R G b).outcome ≡ Recurs onset period dx dy code →
        Settles R G b (record { onset = onset; period = period; displacement = (dx, dy) }) }
{}

/// A set is unresolved exactly if none of its generations recurs within the bound.
pub fn an_unresolved_set_settles_nowhere()
    ensures found { (R : Rule) (G : Generation) (b : ℕ) → ((g : ℕ) → SettlesAt R G b g → ⊥) →
        finding_of R G b ≡ record { population = size G; outcome = Unresolved } }
    ensures only { (R : Rule) (G : Generation) (b g : ℕ) →
        (finding_of R G b).outcome ≡ Unresolved → SettlesAt R G b g → ⊥ }
{}

/// A set that settles within a bound has the same finding within every bound that is at least its onset plus its period, and
/// within no other.
pub fn one_finding()
    ensures more { (R : Rule) (G : Generation) (b c : ℕ) (r : Recurrence) → Settles R G b r →
        r.onset + r.period ≤ c → finding_of R G c ≡ finding_of R G b }
    ensures less { (R : Rule) (G : Generation) (b c : ℕ) (r : Recurrence) → Settles R G b r →
        c < r.onset + r.period → finding_of R G c ≡ record { population = size G; outcome = Unresolved } }
{}

/// The answer to a text is the finding for the pattern that it means, or the number of its fault, which is 1 to 10.
pub fn a_text_is_found_or_refused()
    ensures found { (question : Question) (text : List ℕ) (pattern : Picture) →
        picture_of (reading text) ≡ Ok pattern →
        answer_to_question question text ≡
        Found pattern.rule (finding_to question pattern.rule pattern.cells) }
    ensures refused { (question : Question) (text : List ℕ) (fault : RleFault) →
        refusal text ≡ Some fault →
        answer_to_question question text ≡ Refused (fault_number fault) }
    ensures numbered { (question : Question) (text : List ℕ) (number : ℕ) →
        answer_to_question question text ≡ Refused number →
        (1 ≤ number) × (number ≤ 10) }
{}

/// To the question which generation recurs, no answer is that a pattern has fallen apart, and none that it grows.
pub fn what_comes_again_is_no_ash()
    ensures ash { (text : List ℕ) (b : ℕ) (cells : Option ℕ) (rule : Rule) (finding : Finding)
        (onset : ℕ) (parts : List Part) →
        answer_to_question (AsksSettling b cells) text ≡ Found rule finding →
        finding.outcome ≡ Ash onset parts → ⊥ }
    ensures growth { (text : List ℕ) (b : ℕ) (cells : Option ℕ) (rule : Rule) (finding : Finding)
        (lines : List Engines) → answer_to_question (AsksSettling b cells) text ≡ Found rule finding →
        finding.outcome ≡ Grows lines → ⊥ }
{}

/// If a pattern is found to have fallen apart within a bound, the onset that is found is that of its ash, and the only one.
/// It is the same within each other bound within which the pattern has fallen apart.
pub fn the_onset_of_ash_is_found()
    ensures found { (near : Bool) (R : Rule) (G : Generation) (b onset : ℕ) (parts : List Part) →
        census_of near R G b ≡ Ash onset parts → IsAshOnset R b G onset }
    ensures only { (R : Rule) (G : Generation) (b onset : ℕ) (parts : List Generation) →
        HasFallenApart R b G parts → IsAshOnset R b G onset → ash_onset R G b ≡ onset }
    ensures same { (near close : Bool) (R : Rule) (G : Generation) (b c onset other : ℕ) (parts others : List Part) →
        census_of near R G b ≡ Ash onset parts → census_of close R G c ≡ Ash other others → onset ≡ other }
{}

/// The first generation over a limit is the first that has more cells than allowed. There is none exactly if all generations
/// stay within the limit.
pub fn the_first_generation_past_the_limit()
    ensures some { (R : Rule) (G : Generation) (most last n : ℕ) →
        (first_past (Some most) R G last ≡ Some n)
        ↔ ((n ≤ last) × (most < size (generation R G n)) ×
        ((m : ℕ) → m < n → size (generation R G m) ≤ most)) }
    ensures none { (R : Rule) (G : Generation) (limit : Option ℕ) (last : ℕ) →
        (first_past limit R G last ≡ None) ↔ StaysWithin limit R G last }
{}

/// If two sets settle under one rule, their codes are equal exactly if their generations at the onset are one object.
pub fn codes_tell_objects()
    ensures { (R : Rule) (G J : Generation) (b c : ℕ) (r s : Recurrence) →
        Settles R G b r → Settles R J c s →
        (code_of R (generation R G r.onset) r.period r.displacement ≡
        code_of R (generation R J s.onset) s.period s.displacement)
        ↔ AreOneObject R (generation R G r.onset) (generation R J s.onset) }
{}

/// Objects are counted by their codes in any order with the same result, each exactly once.
pub fn counts_know_no_order()
    ensures order { (codes others : List (List ℕ)) → IsPermutation codes others →
        counted_codes codes ≡ counted_codes others }
    ensures all { (codes : List (List ℕ)) → objects_in (counted_codes codes) ≡ length codes }
{}
