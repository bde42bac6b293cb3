//! The words of a report for a text that has a fault.
ghost use Rattle.std.specs.Prelude.{◌≡◌, ◌++◌, IfOk, OnOk, codes, decimal};
ghost use Rattle.census_faults.specs.Rle.Reported.{fault_words, unnamed_words};

use crate::rle::sentences::sentence;
use itoa::Buffer;
use life_text::RleFault;
use std::alloc::{AllocError, Global};

// Adds a number after a word.
fn push_numbered(words: &mut Vec<u8>, number: u64) -> Result<(), AllocError>
    ensures { OnOk result (words.new.items ≡ words.old.items ++ (codes "fault " ++ decimal number)) }
{
    let mut buffer = Buffer::new();
    words.extend_from_slice(b"fault ")?;
    words.extend_from_slice(buffer.format(number).as_bytes())?;
    Ok(())
}

// Adds the meaning of a number that names no fault of a text.
fn push_unnamed(words: &mut Vec<u8>, number: u64) -> Result<(), AllocError>
    ensures { OnOk result (words.new.items ≡ words.old.items ++ unnamed_words number) }
{
    match number {
        0 => words.extend_from_slice(b"the file can't be read"),
        _ => push_numbered(words, number),
    }
}

/// The meaning of a fault that a report names by this number: the sentence for the fault, that the file can't be read, or, where
/// no fault has it, the number. The only error is out of memory.
pub fn fault_words(alloc: Global, number: u64) -> Result<Vec<u8>, AllocError>
    ensures { IfOk result (λ words. words.items ≡ fault_words number) }
{
    let mut words = Vec::new(alloc);
    match RleFault::of_number(number) {
        Some(fault) => words.extend_from_slice(sentence(fault).as_bytes())?,
        None => push_unnamed(&mut words, number)?,
    }
    Ok(words)
}
