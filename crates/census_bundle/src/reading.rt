//! Reading bundle texts, which are in a format of this project's own.
//!
//! A bundle is a text of lines that end with LF or CR LF; the last may have no ending. A line whose first byte is `@` is
//! `@folder NAME` or `@file NAME`, with exactly one blank before the name. `@folder` begins a folder. `@file` begins an entry
//! of the last folder, whose text is all bytes from the next line up to the next line that begins with `@`, or up to the end,
//! unchanged. Elsewhere only blank lines are allowed. Names may repeat.
ghost use Rattle.std.specs.Prelude.{◌≡◌, ◌≢◌, ◌+◌, ◌<◌, ◌^◌, length, IfOk, IfErr, OnOk, None, Some, Err};
ghost use Rattle.census_bundle.specs.declared.fault.BundleFault.TheVariants.{Memory};
ghost use Rattle.census_bundle.specs.Lines.{whole_lines};
ghost use Rattle.census_bundle.specs.Kinds.{IsFileLine};
ghost use Rattle.census_bundle.specs.Reading.{folders_of, fault_of};
ghost use Rattle.census_bundle.specs.Scan.{read_on, fault_at, IsClosedText, ReadsOn};

use crate::bundle::{AddFault, Bundle};
use crate::fault::BundleFault;
use crate::lines::{Line, is_blank, line_of, split_line, split_text};
use std::alloc::Global;

// A place in a bundle text: the rest of the text, and the number of its first line.
#[derive(Clone, Copy)]
struct Place<'a> {
    rest: &'a [u8],
    number: usize,
}

// The fault of a line whose folder or entry is not added.
fn fault_at(fault: AddFault, line: usize) -> BundleFault
    ensures { result ≡ fault_at fault line }
{
    match fault {
        AddFault::BadName => BundleFault::BadName { line },
        AddFault::NoFolder => BundleFault::FileBeforeFolder { line },
        AddFault::TooMany => BundleFault::TooMany { line },
        AddFault::Memory => BundleFault::Memory,
    }
}

// Reads a line and, where it begins an entry, that entry's text.
fn read_section<'a>(
    bundle: &mut Bundle,
    text: &'a [u8],
    number: usize,
) -> Result<Place<'a>, BundleFault>
    requires some { 0 < length text.now }
    requires fits { number + length text.now < 2 ^ 64 }
    requires closed { IsClosedText bundle.old text.now }
    ensures read { IfOk result
        (λ p. ReadsOn bundle.old bundle.new number p.number text.now p.rest.now) }
    ensures refused { IfErr result
        (λ f. f ≢ Memory → read_on bundle.old number (whole_lines text.now) ≡ Err f) }
{
    let (line, rest) = split_line(text);
    match line_of(line) {
        Line::Folder(name) => match bundle.add_folder(name) {
            Ok(()) => Ok(Place {
                rest,
                number: number + 1,
            }),
            Err(fault) => Err(fault_at(fault, number)),
        },
        Line::File(name) => {
            if bundle.folders().is_empty() {
                return Err(BundleFault::FileBeforeFolder { line: number });
            }
            let entry = split_text(rest);
            match bundle.add_entry(name, entry.text) {
                Ok(()) => Ok(Place {
                    rest: entry.rest,
                    number: number + 1 + entry.lines,
                }),
                Err(fault) => Err(fault_at(fault, number)),
            }
        }
        Line::OtherAt => Err(BundleFault::BadAtLine { line: number }),
        Line::Plain => {
            if !is_blank(line) {
                return Err(BundleFault::StrayText { line: number });
            }
            Ok(Place {
                rest,
                number: number + 1,
            })
        }
    }
}

/// The folders of a bundle text, or its first fault: that of the first line that is wrong, and on one line the fault of the
/// lower number. `Memory` may be returned instead at any allocation before that line.
pub fn read_bundle(alloc: Global, text: &[u8]) -> Result<Bundle, BundleFault>
    ensures found { IfOk result (λ b. b ≡ folders_of text.now) }
    ensures lawful { OnOk result (fault_of text.now ≡ None) }
    ensures refused { IfErr result (λ f. f ≢ Memory → fault_of text.now ≡ Some f) }
{
    let mut bundle = Bundle::empty(alloc);
    let mut rest = text;
    let mut number = 1;
    while !rest.is_empty() {
        let place = read_section(&mut bundle, rest, number)?;
        rest = place.rest;
        number = place.number;
    }
    Ok(bundle)
}
