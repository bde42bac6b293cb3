//! Names of codes.
ghost use Rattle.std.specs.Prelude.{◌≡◌, IfOk};
ghost use Rattle.std.specs.Option.{option_copied};
ghost use Rattle.census_page.specs.Pages.{bold, called, called_in, escaped};

use crate::html::push_escaped;
use crate::own::{BOLD, BOLD_END};
use census_facts::Names;
use census_rows::Row;
use std::alloc::{AllocError, Global};

// A text, escaped, with U+FFFD for bytes that are not UTF-8.
fn escaped(alloc: Global, text: &[u8]) -> Result<Vec<u8>, AllocError>
    ensures { IfOk result (λ made. made.items ≡ escaped text.now) }
{
    let characters = String::from_utf8_lossy(alloc, text)?;
    let bytes = characters.as_bytes();
    let mut made = Vec::with_capacity(alloc, bytes.len())?;
    for byte in bytes {
        push_escaped(&mut made, *byte)?;
    }
    Ok(made)
}

// A name in bold.
fn bold(alloc: Global, name: &[u8]) -> Result<Vec<u8>, AllocError>
    ensures { IfOk result (λ made. made.items ≡ bold name.now) }
{
    let name = escaped(alloc, name)?;
    let mut made = Vec::from_slice(alloc, BOLD)?;
    made.extend_from_slice(name.as_slice())?;
    made.extend_from_slice(BOLD_END)?;
    Ok(made)
}

// The name of a code in bold, or nothing if there is none.
fn called(alloc: Global, names: Option<&Names>, code: &[u8]) -> Result<Vec<u8>, AllocError>
    ensures { IfOk result (λ made. made.items ≡ called (option_copied names.entry) code.now) }
{
    let Some(names) = names else {
        return Ok(Vec::new(alloc));
    };
    match names.name_of(code) {
        Some(name) => bold(alloc, name),
        None => Ok(Vec::new(alloc)),
    }
}

/// The name of the code that a row reports in bold, or nothing if there is none. The only error is out of memory.
pub fn called_in(alloc: Global, names: Option<&Names>, row: &Row) -> Result<Vec<u8>, AllocError>
    ensures { IfOk result (λ made. made.items ≡ called_in (option_copied names.entry) row.now) }
{
    match row {
        Row::Code { code, .. } => called(alloc, names, *code),
        _ => Ok(Vec::new(alloc)),
    }
}
