//! Several reports merged into one, what is kept of a text that was cut in the middle of a report, and laws of reports. The
//! merged report has the collections of all, numbered consecutively, and one `end` line with the sums. `laws` says what rows say
//! of collections, that a report's rows say it of its bundle, and that merged reports are a report of their bundles, one after
//! another; `said` that a text is read exactly where it is lawful reports; `runs` says what a report's numbers count, and that `ok`
//! lines of objects are those of `run`, `bounds` that what is found of patterns is in range, and `cuts` what is kept of a report
//! that was cut.
//!
//! Tested in `tests_reports`.
#![tactic(auto)]

mod bounds;
mod counted;
mod cuts;
mod ended;
mod feeds;
mod kept;
mod laws;
mod lines;
mod mending;
mod merging;
mod numbering;
mod renumber;
mod report_sums;
mod runs;
mod said;
mod written;

pub use bounds::{
    every_lawful_report_is_read, lawful_reports_are_made_one, what_is_found_is_in_range,
};
pub use cuts::{
    a_cut_report_is_mended_to_a_report, what_is_kept_of_a_cut_report_is_a_report,
    what_is_kept_tells_the_closed_collections,
};
pub use laws::{
    a_lawful_report_in_range_is_read, a_report_read_back_tells_its_bundle,
    merged_reports_are_a_report, merged_rows_tell_the_collections_joined,
    one_question_is_asked_of_the_bundles_joined, reports_that_fit_are_merged,
    rows_that_tell_are_a_report,
};
pub use mending::{Cut, Mended, mend};
pub use merging::{Counted, TooMany, count, put_end, put_rows};
pub use report_sums::{Sums, sums_at_end};
pub use runs::{
    ash_lines_tell_the_onset, codes_count_objects_of_ash, growth_is_told_exactly,
    ok_lines_are_those_of_run, one_collection_has_one_report,
};
pub use said::{
    lawful_texts_are_read, texts_that_are_read_are_lawful, what_is_said_of_a_bundle_is_lawful,
};
