//! Laws of reports: what the numbers in a report of objects count, as cells on the plane; which patterns it says recur, and that
//! `run` says so too; which it says grow; and that one collection has one report.

ghost use Rattle.std.specs.Prelude.{◌≡◌, ◌≤◌, ◌↔◌, ◌+◌, ◌++◌, [], ◌∷◌, ℕ, Bool, List, Option, Some, codes};
ghost use Rattle.census_bundle.specs.declared.bundle.Entry.{Entry};
ghost use Rattle.census_format.specs.Found.{outcome_of};
ghost use Rattle.census_format.specs.Lines.{Collection, answer_to_entry, groups_text, pattern_rows};
ghost use Rattle.census_format.specs.Reports.{IsReportOf, end_of, section_of};
ghost use Rattle.census_rows.specs.Kinds.{said, value_at};
ghost use Rattle.census_rows.specs.Lines.{text_of};
ghost use Rattle.census_rows.specs.declared.kinds.Label.TheVariants.{Onset};
ghost use Rattle.census_rows.specs.declared.kinds.Value.TheVariants.{Number};
ghost use Rattle.census_merge.specs.Runs.Fallen.{FallsApart};
ghost use Rattle.census_merge.specs.Runs.Growing.{HasGrown, growing_rows};
ghost use Rattle.census_merge.specs.Runs.ObjectsOfAsh.{CodesCountObjectsOfAsh};
ghost use Rattle.census_merge.specs.Runs.Settled.{IsNeverLarge, SaysOk};
ghost use Rattle.life_answer.specs.Told.{told_of_engines};
ghost use Rattle.life_answer.specs.declared.question.Question.TheVariants.{Objects, Settles};
ghost use Rattle.life_objects.specs.Onset.{IsAshOnset};

/// Where objects are asked for, each `code` line of a collection counts one object. The line has the object's rule and code.
/// Its number is how many sets are that object, among the sets that count. These are the sets of all of the collection's
/// patterns that have fallen apart within the bound under that rule, with no generation up to three times the bound that is too
/// large. Each set that counts of such a pattern has exactly one line with its rule and code. If what is near one another is
/// one object, the objects into which a pattern falls apart count; otherwise their independent parts do.
pub fn codes_count_objects_of_ash()
    ensures { CodesCountObjectsOfAsh }
{}

/// Where objects are asked for, the line of a pattern that falls apart has the onset of its ash: the first generation that is
/// ash within the bound.
pub fn ash_lines_tell_the_onset()
    ensures { (near : Bool) (bound : ℕ) (most : Option ℕ) (horizon : ℕ) (e : Entry) (f : FallsApart bound most e) →
        (onset : ℕ) × IsAshOnset f.rule bound f.cells onset
        × (value_at Onset (said (outcome_of (answer_to_entry (Objects bound most near horizon) e))).fields
        ≡ Some (Number onset)) }
{}

/// Where objects are asked for, an `ok` line is, but for the number of its collection, the line that `run` writes of that pattern
/// at each bound from the line's onset plus its period on. `run` then has no limit of cells, or one that no generation up to its
/// bound exceeds. (Here both have the same number c, whatever it is.)
pub fn ok_lines_are_those_of_run()
    ensures { (near : Bool) (bound : ℕ) (most : Option ℕ) (horizon onset period : ℕ) (e : Entry) →
        SaysOk onset period (answer_to_entry (Objects bound most near horizon) e) →
        (later : ℕ) (limit : Option ℕ) → onset + period ≤ later → IsNeverLarge limit later e →
        (c i : ℕ) → pattern_rows (Objects bound most near horizon) c i e ≡ pattern_rows (Settles later limit) c i e }
{}

/// Where objects are asked for, a line says that a pattern grows exactly if some generation of it grows within the horizon, as
/// is seen by a generation up to the bound, and no generation up to four times that one is too large. After it come the
/// `engine` and `emits` rows of the engines by which that generation grows.
pub fn growth_is_told_exactly()
    ensures told { (near : Bool) (bound : ℕ) (most : Option ℕ) (horizon c i : ℕ) (e : Entry)
        (g : HasGrown bound most horizon e) → pattern_rows (Objects bound most near horizon) c i e
        ≡ growing_rows c i g.rule g.cells e.name (told_of_engines near g.rule g.within g.engines) }
    ensures only { (near : Bool) (bound : ℕ) (most : Option ℕ) (horizon : ℕ) (e : Entry) →
        (said (outcome_of (answer_to_entry (Objects bound most near horizon) e))).word ≡ codes "grows" →
        HasGrown bound most horizon e }
{}

/// One collection has one report: its lines in their order, and the end line.
pub fn one_collection_has_one_report()
    ensures { (said : Collection) (text : List ℕ) → IsReportOf (said ∷ []) text
        ↔ (text ≡ groups_text (section_of 1 said) ++ text_of (end_of (said ∷ []))) }
{}
