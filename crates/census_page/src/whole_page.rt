//! The page as a whole.
ghost use Rattle.watched.specs.Telling.{sheet};
ghost use Rattle.census_readback.specs.Shapes.{AreReports};
ghost use Rattle.std.specs.Option.{option_copied};
ghost use Rattle.census_page.specs.Pages.{AreOfAll, AreShown, PutsRows};

use crate::front::{choices, foot, front};
use crate::index::put_index;
use crate::options::PageOptions;
use crate::own::{INDEX, INDEX_END};
use crate::putting::{put_html, put_own};
use crate::section::put_section;
use census_facts::Names;
use census_readback::{Sections, collections};
use census_rows::Rows;
use std::alloc::{AllocError, Global};
use std::io::Write;
use watched::{Block, Output};

// Writes each collection.
fn put_sections<W: Write>(
    alloc: Global,
    options: &PageOptions,
    names: Option<&Names>,
    sections: &Sections,
    block: &mut Block,
    writer: &mut Output<W>,
) -> Result<(), AllocError>
    ensures { PutsRows (option_copied names.entry) result (AreOfAll options.now sections.now)
        (sheet block.old writer.old) (sheet block.new writer.new) }
{
    for index in 0..sections.len() {
        let rows = sections.section(index);
        put_section(
            alloc,
            options,
            names,
            index as u64 + 1,
            &rows,
            block,
            writer,
        )?;
    }
    Ok(())
}

// Writes the page from the table of all collections on.
fn put_body<W: Write>(
    alloc: Global,
    options: &PageOptions,
    names: Option<&Names>,
    rows: &Rows,
    sections: &Sections,
    block: &mut Block,
    writer: &mut Output<W>,
) -> Result<(), AllocError>
    ensures { PutsRows (option_copied names.entry) result (AreOfAll options.now sections.now)
        (sheet block.old writer.old) (sheet block.new writer.new) }
{
    put_own(INDEX, block, writer);
    put_index(alloc, sections, block, writer)?;
    put_own(INDEX_END, block, writer);
    let choices = choices(alloc, options.patterns, rows)?;
    let foot = foot(alloc)?;
    put_html(&choices, block, writer);
    put_sections(alloc, options, names, sections, block, writer)?;
    put_html(&foot, block, writer);
    Ok(())
}

/// Writes a report, or several in sequence, as one HTML page in UTF-8 that stands alone: it has no script and requests nothing.
/// First come its title and note, the counts of all patterns and kinds of objects, a table of the collections with links to
/// them, and a choice of the rows that are shown. For each collection it has the name, the counts, the lifespans of its
/// patterns, if a hundred or more recur or have fallen apart, a table with a row for each `code` row, or for as many of them as
/// the options allow, in the order of the options, and a table of the patterns that do not recur, or if not all patterns are
/// shown, of those that are unresolved. A code with a name has this in its row. The counts are those of all rows. No name,
/// rule, code or option adds markup. Names and codes may be links to other places, from which nothing is requested before a
/// link is followed.
///
/// Only the text of one row is in memory at a time. If memory runs out, a prefix of the page has been written. Nothing is
/// written to a writer that has failed.
pub fn put_page<W: Write>(
    alloc: Global,
    options: &PageOptions,
    names: Option<&Names>,
    rows: &Rows,
    block: &mut Block,
    writer: &mut Output<W>,
) -> Result<(), AllocError>
    requires { AreReports rows.now }
    ensures { PutsRows (option_copied names.entry) result (AreShown options.now rows.now)
        (sheet block.old writer.old) (sheet block.new writer.new) }
{
    let sections = collections(alloc, rows)?;
    let front = front(alloc, options, sections.len() as u64, rows)?;
    put_html(&front, block, writer);
    put_body(alloc, options, names, rows, &sections, block, writer)
}
