//! Laws of reports that were cut: what is kept of a lawful report is a lawful report of the collections that are closed.

ghost use Rattle.std.specs.Prelude.{◌≡◌, ◌<◌, ◌++◌, ℕ, List, length};
ghost use Rattle.census_bundle.specs.declared.bundle.Folder.{Folder};
ghost use Rattle.census_merge.specs.Kept.{report_of, whole_count};
ghost use Rattle.census_merge.specs.Mended.{IsCutTo};
ghost use Rattle.census_merge.specs.declared.mending.Cut.{Cut};
ghost use Rattle.census_format.specs.Reports.{IsReport, said_under};
ghost use Rattle.census_readback.specs.Texts.{AllLines};
ghost use Rattle.census_rows.specs.Lines.{text_of};
ghost use Rattle.census_rows.specs.declared.row.Row.{Row};
ghost use Rattle.census_merge.specs.Cuts.Closed.{closed_collections};
ghost use Rattle.life_answer.specs.declared.question.Question.{Question};
ghost use Rattle.census_merge.specs.Joining.{IsBundle};
ghost use Rattle.census_merge.specs.Telling.{Tells};

/// If a lawful report was cut before its `end` row was whole, the rows that are kept say what is found of the patterns of the
/// collections that are closed.
pub fn what_is_kept_tells_the_closed_collections()
    ensures { (b : List Folder) (question : Question) (rows : List Row) (rest : List ℕ) →
        IsBundle b → AllLines rows
        → IsReport b question (text_of rows ++ rest) → whole_count rows ≡ 0 →
        Tells (said_under question (closed_collections rows 1 b)) (report_of rows) }
{}

/// If a lawful report was cut before its `end` row was whole, the rows that are kept, written line by line, are a lawful report
/// of the collections that are closed, under the same question.
pub fn what_is_kept_of_a_cut_report_is_a_report()
    ensures { (b : List Folder) (question : Question) (rows : List Row) (rest : List ℕ) →
        IsBundle b → AllLines rows
        → IsReport b question (text_of rows ++ rest) → whole_count rows ≡ 0 →
        IsReport (closed_collections rows 1 b) question (text_of (report_of rows)) }
{}

/// If something was cut off the end of a lawful report, what is left is mended to a lawful report of the collections that are
/// closed in its rows, under the same question.
pub fn a_cut_report_is_mended_to_a_report()
    ensures { (b : List Folder) (question : Question) (text more mended : List ℕ) (cut : Cut) →
        IsBundle b → IsReport b question (text ++ more) → 0 < length more
        → (is : IsCutTo text mended cut) → IsReport (closed_collections is.rows 1 b) question mended }
{}
