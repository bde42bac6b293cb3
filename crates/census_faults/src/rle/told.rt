//! The lines that report a fault.
ghost use Rattle.std.specs.Prelude.{◌≡◌, IfOk};
ghost use Rattle.census_faults.specs.Rle.Lines.{IsFaultLine, fault_name};

use crate::lines::Words;
use crate::messages::{Message, message, numbered};
use crate::rle::line::place_of;
use crate::rle::sentences::words_of;
use arrayvec::ArrayString;
use itoa::Buffer;
use life_text::RleFault;
use std::alloc::{AllocError, Global};

// Room for the bytes of a place: two numbers of 20 digits, two `:` and a blank.
const PLACE_LIMIT: usize = 48;

/// The name of a fault in the program's lines: `rle fault N`, with its byte as in `rle fault 6 at 17` where it names one, or
/// `out of memory`.
pub fn fault_name(fault: RleFault) -> Message
    ensures { result.bytes ≡ fault_name fault }
{
    match fault {
        RleFault::Memory => message("out of memory"),
        _ => numbered("rle", fault.number(), fault.at()),
    }
}

/// The place at which a reader should look for a fault of a text, as `LINE:COLUMN: `. It allocates no memory.
pub fn place_text(text: &[u8], fault: RleFault) -> ArrayString<PLACE_LIMIT> {
    let place = place_of(text, &fault);
    let mut buffer = Buffer::new();
    let mut shown = ArrayString::new();
    shown.push_str(buffer.format(place.line));
    shown.push_str(":");
    shown.push_str(buffer.format(place.column));
    shown.push_str(": ");
    shown
}

/// The line `LINE:COLUMN: WORDS (NUMBER)` that reports a fault of a text, without a line feed: the place at which a reader
/// should look, the sentence, and the fault's number with its byte, counted from 0, as in `rle fault 6 at 17`.
pub fn fault_line(alloc: Global, text: &[u8], fault: &RleFault) -> Result<Vec<u8>, AllocError>
    ensures { IfOk result (λ line. IsFaultLine fault.now line.items) }
{
    let mut words = Words::none(alloc);
    words.add(place_text(text, *fault).as_str().as_bytes())?;
    words.add(words_of(text, *fault).as_bytes())?;
    let mut line = words.as_slice().to_vec(alloc)?;
    line.extend_from_slice(b" (")?;
    line.extend_from_slice(fault_name(*fault).as_str().as_bytes())?;
    line.extend_from_slice(b")")?;
    Ok(line)
}
