//! Reports that files or standard input have, written as one.
ghost use Rattle.std.specs.Prelude.{◌≡◌, ◌⊎◌, [], false, map, IfErr, IfOk, MatchResult, OnOk};
ghost use Rattle.census_reports.specs.Outcomes.{ReportsFail, SaysOfReports, WritesReports};
ghost use Rattle.census_reports.specs.Lawful.Lawful.{MergesLawfully};

use crate::{Form, Reading, ReportsError, Written, write_reports};
use census_folders::Shelf;
use std::alloc::Global;
use std::io::{Read, Write};
use watched::Streams;

/// Reads the texts of words, and writes one report of all the reports in them, as `write_reports` does. Where these are lawful
/// reports of bundles, each under its own question, and none is mended, what is written is the report of what is said of the
/// bundles, one after another. Nothing is looked for, and nothing is written to standard error.
pub fn merge_reports<S: Shelf, I: Read, O: Write, E: Write>(
    shelf: &S,
    alloc: Global,
    reading: Reading,
    words: &[&str],
    streams: &mut Streams<I, O, E>,
) -> Result<Written, ReportsError>
    requires { streams.old.input.failed ≡ false }
    ensures done { IfOk result
        (λ written. WritesReports Form.Merged reading written ((S.tellings shelf.now).held []) (map (λ s. s.now) words.now)
        streams.old streams.new) }
    ensures fails { IfErr result
        (λ error. ReportsFail error Form.Merged reading ((S.tellings shelf.now).held [])
        (map (λ s. s.now) words.now)
        streams.old streams.new) }
    ensures lawful { reading.cut ≡ false → OnOk result
        (MergesLawfully reading.limit ((S.tellings shelf.now).held []) (map (λ s. s.now) words.now)
        streams.old.input streams.new.input streams.old.output streams.new.output) }
    ensures says { MatchResult result
        (λ _. SaysOfReports Form.Merged reading ((S.tellings shelf.now).held []) (map (λ s. s.now) words.now)
        streams.old streams.new streams.old.errors streams.new.errors)
        (λ _. (streams.new.errors ≡ streams.old.errors) ⊎ SaysOfReports Form.Merged reading ((S.tellings shelf.now).held [])
        (map (λ s. s.now) words.now) streams.old streams.new streams.old.errors streams.new.errors) }
    ensures quiet { streams.new.errors ≡ streams.old.errors }
{
    write_reports(shelf, alloc, Form::Merged, reading, words, streams)
}
