//! The rows of texts that are reports.
ghost use Rattle.std.specs.Prelude.{◌<◌, length, IfOk, MatchResult};
ghost use Rattle.census_readback.specs.Shapes.{AreReports};
ghost use Rattle.census_reports.specs.Rows.{AreRowsOf, LackRows};

use crate::error::ReportsError;
use crate::kind::kind_of;
use census_folders::Bytes;
use census_readback::read_report;
use census_rows::Rows;
use std::alloc::Global;

// The rows of these texts, each of which is a report, or several.
pub fn rows_of<'a>(alloc: Global, texts: &'a [Bytes]) -> Result<Rows<'a>, ReportsError>
    requires { 0 < length texts.now }
    ensures rows { MatchResult result
        (λ rows. AreRowsOf rows texts.now)
        (λ error. LackRows error texts.now) }
    ensures reports { IfOk result (λ rows. AreReports rows) }
{
    let mut rows = Rows::new(alloc);
    for index in 0..texts.len() {
        match read_report(alloc, texts[index].as_slice(), &mut rows)? {
            Ok(()) => {}
            Err(line) => {
                return Err(ReportsError::Fault {
                    text: index + 1,
                    line,
                    kind: kind_of(texts[index].as_slice()),
                });
            }
        }
    }
    Ok(rows)
}
