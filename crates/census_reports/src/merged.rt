//! `census merge`: one report of those that texts have. No row is kept.
ghost use Rattle.std.specs.Prelude.{◌≡◌, ◌<◌, List, None, length, MatchResult};
ghost use Rattle.watched.specs.Telling.{TellsAfter, sheet};
ghost use Rattle.census_rows.specs.declared.row.Row.{Row};
ghost use Rattle.census_rows.specs.Lines.{text_of};
ghost use Rattle.watched.specs.Streams.{PutsPrefix, Writes};
ghost use Rattle.census_merge.specs.Merged.{AreFew, merged_rows};
ghost use Rattle.census_merge.specs.Sums.{first_excess, no_sums};
ghost use Rattle.census_reports.specs.Forms.{RefusesRows};
ghost use Rattle.census_reports.specs.Rows.{AreRowsOf, LackRows};
ghost use Rattle.census_reports.specs.Written.{FailsTexts, WritesTexts};

use crate::error::ReportsError;
use crate::form::Form;
use crate::kind::kind_of;
use census_folders::Bytes;
use census_merge::{Counted, Sums, count, put_end, put_rows};
use census_readback::fault_of;
use std::alloc::Global;
use std::io::Write;
use watched::{Block, Failed, Output, send};

// Checks whether each of these texts is a report, or several.
fn look_at(alloc: Global, texts: &[Bytes]) -> Result<(), ReportsError>
    ensures { MatchResult result (λ _. (rows : List Row) × AreRowsOf rows texts.now)
        (λ error. LackRows error texts.now) }
{
    for index in 0..texts.len() {
        if let Some(line) = fault_of(alloc, texts[index].as_slice())? {
            return Err(ReportsError::Fault {
                text: index + 1,
                line,
                kind: kind_of(texts[index].as_slice()),
            });
        }
    }
    Ok(())
}

// Checks whether one report can have all their collections and patterns. (Texts that memory could not hold are refused as out of
// memory.)
fn count_all(texts: &[Bytes]) -> Result<(), ReportsError>
    ensures { (rows : List Row) → AreRowsOf rows texts.now → MatchResult result
        (λ _. first_excess 1 no_sums rows ≡ None)
        (λ error. RefusesRows error Form.Merged rows) }
{
    let mut counted = Counted::nothing();
    for index in 0..texts.len() {
        let text = texts[index].as_slice();
        if usize::MAX - counted.report < text.len() {
            return Err(ReportsError::Memory);
        }
        counted = match count(counted, text) {
            Ok(all) => all,
            Err(excess) => {
                return Err(ReportsError::TooMany {
                    report: excess.report,
                });
            }
        };
    }
    Ok(())
}

// Puts one report of these texts, which aren't too many.
fn put_all<O: Write>(texts: &[Bytes], block: &mut Block, output: &mut Output<O>)
    ensures { (rows : List Row) → AreRowsOf rows texts.now → AreFew rows
        → first_excess 1 no_sums rows ≡ None
        → TellsAfter (text_of (merged_rows rows)) (sheet block.old output.old)
        (sheet block.new output.new) }
{
    let mut sums = Sums::none();
    for index in 0..texts.len() {
        let Some(all) = put_rows(sums, texts[index].as_slice(), block, output) else {
            return;
        };
        sums = all;
    }
    put_end(sums, block, output);
}

// Writes one report of these texts, which aren't too many.
fn write_report<O: Write>(
    alloc: Global,
    texts: &[Bytes],
    output: &mut Output<O>,
) -> Result<(), Failed>
    ensures { (rows : List Row) → AreRowsOf rows texts.now → AreFew rows
        → first_excess 1 no_sums rows ≡ None
        → MatchResult result
        (λ _. Writes (text_of (merged_rows rows)) output.old.stream output.new.stream)
        (λ _. PutsPrefix (text_of (merged_rows rows)) output.old.stream output.new.stream) }
{
    let mut block = Block::new(alloc);
    put_all(texts, &mut block, output);
    send(&mut block, output)
}

// Writes one report of the reports that texts have, where each is a report, or several, and they
// aren't too many.
pub fn write_merged<O: Write>(
    alloc: Global,
    texts: &[Bytes],
    output: &mut Output<O>,
) -> Result<bool, ReportsError>
    ensures { MatchResult result
        (λ found. WritesTexts Form.Merged found texts.now output.old.stream output.new.stream)
        (λ error. FailsTexts error Form.Merged texts.now output.old.stream output.new.stream) }
{
    look_at(alloc, texts)?;
    if let Err(error) = count_all(texts) {
        return Err(error);
    }
    match write_report(alloc, texts, output) {
        Ok(()) => Ok(false),
        Err(_) => Err(ReportsError::Write),
    }
}
