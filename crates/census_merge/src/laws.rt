//! Laws of reports: a report is what is said of each pattern. What rows say, that a report's rows say it of its bundle, and that
//! merged reports are a report of their bundles, one after another, each under its own question.
ghost use Rattle.std.specs.Prelude.{◌≡◌, ◌≤◌, ℕ, List, None, length, map};
ghost use Rattle.census_format.specs.Lines.{Collection};
ghost use Rattle.census_format.specs.Reports.{IsReport, IsReportOf, said_under};
ghost use Rattle.census_bundle.specs.declared.bundle.Folder.{Folder};
ghost use Rattle.census_bundle.specs.Sizes.{count_limit};
ghost use Rattle.census_merge.specs.Merged.{merged_rows};
ghost use Rattle.census_merge.specs.Sums.{first_excess, no_sums};
ghost use Rattle.census_readback.specs.Reports.{ReadsAsReports};
ghost use Rattle.census_readback.specs.Shapes.{all_rows};
ghost use Rattle.census_rows.specs.Lines.{text_of};
ghost use Rattle.census_rows.specs.declared.row.Row.{Row};
ghost use Rattle.life_answer.specs.declared.question.Question.{Question};
ghost use Rattle.census_merge.specs.Joining.{AreBundles, Asked, EachIsReportOf, EachTells, IsBundle, all_said, joined, texts};
ghost use Rattle.census_merge.specs.Ranges.{InRange, Readable};
ghost use Rattle.census_merge.specs.Telling.{Tells};

/// Rows that say something of the patterns of collections, written line by line, are the report of it.
pub fn rows_that_tell_are_a_report()
    ensures { (said : List Collection) (rows : List Row) → Tells said rows
        → IsReportOf said (text_of rows) }
{}

/// A lawful report of a bundle, read back, gives rows that say what is found of the bundle's patterns.
pub fn a_report_read_back_tells_its_bundle()
    ensures { (b : List Folder) (question : Question) (text : List ℕ) (rows : List Row) → IsBundle b
        → IsReport b question text → ReadsAsReports rows text → Tells (said_under question b) rows }
{}

/// If each of several lists of rows says something of its collections, the merged rows say it of the collections, one after
/// another.
pub fn merged_rows_tell_the_collections_joined()
    ensures { (parts : List (List Collection)) (reports : List (List Row)) → EachTells parts reports
        → Tells (joined parts) (merged_rows (all_rows reports)) }
{}

/// If each of several texts is a lawful report of its bundle under its own question, and the rows are those of all texts, read
/// back, then the merged rows, written line by line, are the report of what is said of the bundles, one after another, each
/// under its own question.
pub fn merged_reports_are_a_report()
    ensures { (asked : List Asked) (reports : List (List ℕ)) (rows : List Row)
        → AreBundles asked → EachIsReportOf (all_said asked) reports →
        ReadsAsReports rows (texts reports)
        → IsReportOf (joined (all_said asked)) (text_of (merged_rows rows)) }
{}

/// What is said of several bundles under one question is what is said under it of the bundles, one after another. So merged
/// reports of one question are a lawful report of that question.
pub fn one_question_is_asked_of_the_bundles_joined()
    ensures { (question : Question) (parts : List (List Folder)) →
        joined (map (said_under question) parts) ≡ said_under question (joined parts) }
{}

/// Reports of bundles that fit together, at most 65,535 collections in all, are not too many to be merged.
pub fn reports_that_fit_are_merged()
    ensures { (asked : List Asked) (reports : List (List ℕ)) (rows : List Row)
        → AreBundles asked → EachIsReportOf (all_said asked) reports →
        ReadsAsReports rows (texts reports)
        → length (joined (all_said asked)) ≤ count_limit → first_excess 1 no_sums rows ≡ None }
{}

/// A lawful report of a bundle is read back if the numbers that are found of its patterns are in the range of a line.
pub fn a_lawful_report_in_range_is_read()
    ensures { (b : List Folder) (question : Question) (text : List ℕ) → IsBundle b →
        InRange b question
        → IsReport b question text → Readable text }
{}
