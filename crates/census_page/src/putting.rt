//! Writing pieces of a page.
ghost use Rattle.std.specs.Prelude.{[], ◌∷◌};
ghost use Rattle.std.specs.Option.{option_copied};
ghost use Rattle.watched.specs.Telling.{sheet};
ghost use Rattle.census_page.specs.Pages.{Puts, PutsHtml};

use crate::called::called_in;
use crate::html::Html;
use crate::own::{ROW, text_of};
use census_facts::Names;
use census_rows::Row;
use std::alloc::{AllocError, Global};
use std::io::Write;
use watched::{Block, Output, put};

/// Writes HTML.
pub fn put_html<W: Write>(html: &Html, block: &mut Block, writer: &mut Output<W>)
    ensures { PutsHtml (sheet block.old writer.old) (sheet block.new writer.new) }
{
    put(html.as_slice(), block, writer);
}

/// Writes the text of the template with this number.
pub fn put_own<W: Write>(number: usize, block: &mut Block, writer: &mut Output<W>)
    ensures { PutsHtml (sheet block.old writer.old) (sheet block.new writer.new) }
{
    put(text_of(number), block, writer);
}

/// Writes the beginning of a row about a row of the report: the text that all rows begin with, then HTML, and then the name of
/// the code, if it has one. If memory runs out, nothing is written.
pub fn put_row<W: Write>(
    alloc: Global,
    names: Option<&Names>,
    row: &Row,
    front: &Html,
    block: &mut Block,
    writer: &mut Output<W>,
) -> Result<(), AllocError>
    ensures { Puts (option_copied names.entry) result (row.now ∷ [])
        (sheet block.old writer.old) (sheet block.new writer.new) }
{
    let name = called_in(alloc, names, row)?;
    put(ROW, block, writer);
    put(front.as_slice(), block, writer);
    put(name.as_slice(), block, writer);
    Ok(())
}
