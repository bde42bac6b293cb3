//! Fields, each after a blank.
ghost use Rattle.std.specs.Prelude.{◌∷◌};
ghost use Rattle.watched.specs.Telling.{TellsAfter, sheet};

use itoa::Integer;
use std::io::Write;
use watched::{Block, Output, put, put_number as put_digits};

/// Puts a blank and these bytes.
pub fn put_field<W: Write>(field: &[u8], block: &mut Block, writer: &mut Output<W>)
    ensures { TellsAfter (32 ∷ field.now) (sheet block.old writer.old)
        (sheet block.new writer.new) }
{
    put(b" ", block, writer);
    put(field, block, writer);
}

/// Puts a blank and a number.
pub fn put_number<I: Integer, W: Write>(number: I, block: &mut Block, writer: &mut Output<W>)
    ensures { TellsAfter (32 ∷ I.text number) (sheet block.old writer.old)
        (sheet block.new writer.new) }
{
    put(b" ", block, writer);
    put_digits(number, block, writer);
}
