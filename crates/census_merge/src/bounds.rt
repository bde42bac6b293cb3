//! Laws of ranges: what is found of patterns fits the numbers of a report's lines, and so every lawful report is read back.

ghost use Rattle.std.specs.Prelude.{◌<◌, ℕ, List, length};
ghost use Rattle.census_bundle.specs.declared.bundle.Folder.{Folder};
ghost use Rattle.census_format.specs.Reports.{IsReport};
ghost use Rattle.life_answer.specs.Questions.{IsAnswered};
ghost use Rattle.life_answer.specs.declared.question.Question.{Question};
ghost use Rattle.census_merge.specs.Bounds.Merging.{AreMade};
ghost use Rattle.census_merge.specs.Joining.{AreAnswered, AreBundles, Asked, EachIsReportOf, IsBundle, all_said};
ghost use Rattle.census_merge.specs.Ranges.{InRange, Readable};

/// What is found of the patterns of a bundle fits 64 bits, and no code is empty, whichever question is asked within its bounds.
pub fn what_is_found_is_in_range()
    ensures { (b : List Folder) (question : Question) → IsBundle b → IsAnswered question →
        InRange b question }
{}

/// Every lawful report of a bundle is read back without a fault.
pub fn every_lawful_report_is_read()
    ensures { (b : List Folder) (question : Question) (text : List ℕ) → IsBundle b →
        IsAnswered question
        → IsReport b question text → Readable text }
{}

/// If each of several texts is a lawful report of its bundle under its own question, all of them are read back as one, and the
/// merged rows as written are the report of what is said of the bundles, one after another.
pub fn lawful_reports_are_made_one()
    ensures { (asked : List Asked) (reports : List (List ℕ)) → AreAnswered asked
        → 0 < length asked → AreBundles asked → EachIsReportOf (all_said asked) reports →
        AreMade asked reports }
{}
