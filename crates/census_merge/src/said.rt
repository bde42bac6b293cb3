//! Laws of texts: those that are read are lawful reports, and lawful reports are read.

ghost use Rattle.std.specs.Prelude.{ℕ, List};
ghost use Rattle.census_bundle.specs.declared.bundle.Folder.{Folder};
ghost use Rattle.census_format.specs.Reports.{said_under};
ghost use Rattle.census_merge.specs.Joining.{IsBundle};
ghost use Rattle.census_merge.specs.Lawful.{AreLawful};
ghost use Rattle.census_merge.specs.LawfulTexts.{IsLawfulText};
ghost use Rattle.census_merge.specs.Ranges.{Readable};
ghost use Rattle.census_readback.specs.Reports.{ReadsAsReports};
ghost use Rattle.census_rows.specs.declared.row.Row.{Row};
ghost use Rattle.life_answer.specs.Questions.{IsAnswered};
ghost use Rattle.life_answer.specs.declared.question.Question.{Question};

/// A text that is read is lawful reports, one after another: something lawful is said of the patterns of collections, and the
/// text is the report of it.
pub fn texts_that_are_read_are_lawful()
    ensures { (text : List ℕ) (rows : List Row) → ReadsAsReports rows text → IsLawfulText text }
{}

/// Lawful reports, one after another, are read.
pub fn lawful_texts_are_read()
    ensures { (text : List ℕ) → IsLawfulText text → Readable text }
{}

/// What is said of the patterns of a bundle is lawful, whichever question is asked within its bounds.
pub fn what_is_said_of_a_bundle_is_lawful()
    ensures { (b : List Folder) (question : Question) → IsBundle b → IsAnswered question →
        AreLawful (said_under question b) }
{}
