//! Rows as a text.
ghost use Rattle.std.specs.Prelude.{◌≡◌, IfOk};
ghost use Rattle.census_rows.specs.Lines.{line_of, text_of};
ghost use Rattle.watched.specs.Telling.{TellsAfter, sheet};

use census_rows::{Row, put_row};
use std::alloc::{AllocError, Global};
use std::io::Write;
use watched::{Block, Output, put, send};

// Writes a row's line.
fn put_line<W: Write>(row: &Row, block: &mut Block, writer: &mut Output<W>)
    ensures { TellsAfter (line_of row.now) (sheet block.old writer.old)
        (sheet block.new writer.new) }
{
    put_row(row, block, writer);
    put(b"\n", block, writer);
}

// Writes the line of each row.
fn put_lines<W: Write>(rows: &[Row], block: &mut Block, writer: &mut Output<W>)
    ensures { TellsAfter (text_of rows.now) (sheet block.old writer.old)
        (sheet block.new writer.new) }
{
    for row in rows {
        put_line(row, block, writer);
    }
}

// The lines of rows.
pub fn text_of(alloc: Global, rows: &[Row]) -> Result<Vec<u8>, AllocError>
    ensures { IfOk result (λ text. text.items ≡ text_of rows.now) }
{
    let mut block = Block::new(alloc);
    let mut writer = Output::new(Vec::new(alloc));
    put_lines(rows, &mut block, &mut writer);
    match send(&mut block, &mut writer) {
        Ok(()) => Ok(writer.into_inner()),
        Err(_) => Err(AllocError),
    }
}
